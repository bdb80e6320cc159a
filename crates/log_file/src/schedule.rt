// Reading an order of events.
ghost use Rattle.std.specs.Prelude.{◌≡◌, ◌≢◌, ◌↔◌, ℕ, ◌+◌, ◌*◌, ◌^◌, ◌<◌, ◌≤◌, List, length, Ok, IfOk, IfErr, OnOk, MatchResult};
ghost use Rattle.light_base.specs.Numbers.{IsBytes};
ghost use Rattle.light_base.specs.declared.tag.Event.{Event};
ghost use Rattle.log_file.specs.declared.sched_fault.SchedKind.TheVariants.{Memory};
ghost use Rattle.log_file.specs.Schedules.{Gives, IsSchedule, MoreIsTooLong, out_of_memory, reaches, event_in, events_in, count_in, schedule_read};

use crate::numbers::number_at;
use crate::sched_fault::{SchedFault, SchedKind};
use light_base::{Event, Tag};
use std::alloc::Global;

// Whether the bytes reach a place.
#[tactic(auto, unfolding(crate::specs::Schedules::reaches))]
fn reaches(bytes: &[u8], place: usize) -> Result<(), SchedFault>
    requires { length bytes.now < 2 ^ 32 }
    ensures value { result ≡ reaches bytes.now place }
    ensures there { OnOk result (place ≤ length bytes.now) }
{
    if bytes.len() < place {
        return Err(SchedFault::new(SchedKind::Short, bytes.len()));
    }
    Ok(())
}

// How many events there are.
#[tactic(auto, unfolding(crate::specs::Schedules::count_in))]
fn count_in(bytes: &[u8]) -> Result<u32, SchedFault>
    requires { length bytes.now < 2 ^ 32 }
    ensures { result ≡ count_in bytes.now }
{
    reaches(bytes, 8)?;
    if !bytes.starts_with(b"LSC1") {
        return Err(SchedFault::new(SchedKind::Magic, 0));
    }
    Ok(number_at(bytes, 4))
}

// The event whose tag has this number.
#[tactic(auto, unfolding(crate::specs::Schedules::event_in))]
fn event_in(bits: u32) -> Option<Event>
    ensures { result ≡ event_in bits }
{
    Tag::from_bits(bits)?.writer()
}

// So many events.
fn events_of(alloc: Global, count: usize, bytes: &[u8]) -> Result<Vec<Event>, SchedFault>
    requires few { length bytes.now < 2 ^ 32 }
    requires there { 8 + 4 * count ≤ length bytes.now }
    ensures { Gives (λ events. events.items) result (events_in bytes.now count) }
{
    let mut events = Vec::with_capacity(alloc, count)?;
    for place in 0..count {
        match event_in(number_at(bytes, 8 + 4 * place)) {
            Some(event) => events.push(event)?,
            None => return Err(SchedFault::new(SchedKind::Event, place)),
        }
    }
    Ok(events)
}

// The events of a schedule.
#[tactic(auto, unfolding(crate::specs::Schedules::schedule_read))]
fn read_events(alloc: Global, bytes: &[u8]) -> Result<Vec<Event>, SchedFault>
    requires { length bytes.now < 2 ^ 32 }
    ensures { Gives (λ events. events.items) result (schedule_read bytes.now) }
{
    let count = count_in(bytes)? as usize;
    let end = 8 + 4 * count;
    reaches(bytes, end)?;
    let events = events_of(alloc, count, bytes)?;
    if end < bytes.len() {
        return Err(SchedFault::new(SchedKind::Long, end));
    }
    Ok(events)
}

/// The order whose text the bytes are, of which there are fewer than 2^32. An `Err` is the first fault: of the beginning, of
/// the events, of the end; or `Memory`, where a request for memory was refused.
pub fn read_schedule(alloc: Global, bytes: &[u8]) -> Result<Vec<Event>, SchedFault>
    requires { length bytes.now < 2 ^ 32 }
    // What is read is spelled so.
    ensures found { IfOk result (λ order. IsSchedule bytes.now order.items) }
    // The text of an order is read as this order, unless memory runs out.
    ensures only { (order : List Event) → IsSchedule bytes.now order → MatchResult result (λ read. read.items ≡ order) (λ e. e ≡ out_of_memory) }
    // Bytes that are refused are the text of no order, unless memory ran out.
    ensures refused { IfErr result (λ e. e.kind ≢ Memory → (order : List Event) → ¬ IsSchedule bytes.now order) }
    // Which fault it is.
    ensures exact { Gives (λ order. order.items) result (schedule_read bytes.now) }
{
    read_events(alloc, bytes)
}

/// Bytes are the text of an order exactly where they are read as this order; and where bytes follow the text, they are too
/// long, from its end on.
pub fn schedule_law()
    ensures read { (bytes : List ℕ) (order : List Event) → IsBytes bytes → (schedule_read bytes ≡ Ok order) ↔ IsSchedule bytes order }
    ensures long { MoreIsTooLong }
{}
