// The steps that have a place: the events of a log, and the writes that runs made.
ghost use Rattle.std.specs.Prelude.{◌≡◌, ◌++◌, map, All, IfOk, OnOk, Some};
ghost use Rattle.std.specs.List.{filter_map, list_any};
ghost use Rattle.light_base.specs.Tags.{HasTag};
ghost use Rattle.audit.specs.Gathering.{to_initial, ListsPlaced, TellsImpossible};

use constraints::Problem;
use dep_log::RunLog;
use light_base::{Event, Memory, Tag};
use replayer::Written;
use std::alloc::Global;

// Adds the tags of events.
fn put_tags(tags: &mut Vec<Tag>, events: &[Event]) -> Result<(), Memory>
    requires { All HasTag events.now }
    ensures { OnOk result (tags.new.items ≡ tags.old.items ++ map (λ event. Some event) events.now) }
{
    for event in events {
        tags.push(event.tag())?;
    }
    Ok(())
}

// Adds the tags of writes.
fn put_writes(tags: &mut Vec<Tag>, writes: &[Written]) -> Result<(), Memory>
    requires { All (λ write. HasTag write.event) writes.now }
    ensures { OnOk result (tags.new.items ≡ tags.old.items ++ map (λ write. Some write.event) writes.now) }
{
    for write in writes {
        tags.push(write.event.tag())?;
    }
    Ok(())
}

// The tags of the events and the writes.
fn gathered(alloc: Global, events: &[Event], writes: &[Written]) -> Result<Vec<Tag>, Memory>
    requires events { All HasTag events.now }
    requires writes { All (λ write. HasTag write.event) writes.now }
    ensures { IfOk result (λ tags. tags.items ≡
        map (λ event. Some event) events.now ++ map (λ write. Some write.event) writes.now) }
{
    let mut tags = Vec::new(alloc);
    put_tags(&mut tags, events)?;
    put_writes(&mut tags, writes)?;
    Ok(tags)
}

// The events among tags.
fn writers(alloc: Global, tags: &[Tag]) -> Result<Vec<Event>, Memory>
    ensures { IfOk result (λ events. events.items ≡ filter_map (λ tag. tag) tags.now) }
{
    let events = tags.iter().filter_map(|tag| tag.writer()).collect(alloc)?;
    Ok(events)
}

/// The steps that have a place, by thread and then by number: the events of the log, and these writes. Where runs fit the
/// log and made just these writes, they are the steps that a placing has. The one error is want of memory.
pub fn list_placed(
    alloc: Global,
    problem: &Problem,
    writes: &[Written],
) -> Result<Vec<Event>, Memory>
    requires { All (λ write. HasTag write.event) writes.now }
    ensures { ListsPlaced problem.now writes.now result }
{
    let events = problem.events();
    let mut tags = gathered(alloc, events, writes)?;
    tags.sort_unstable();
    tags.dedup();
    writers(alloc, &tags)
}

// Whether the write is to a word whose last tag is initial.
fn is_to_initial(last_tags: &[Tag], write: &Written) -> bool
    ensures { result ≡ to_initial last_tags.now write.now }
{
    match last_tags.get(usize::from(write.word)) {
        Some(tag) => tag.writer().is_none(),
        None => true,
    }
}

// Whether one of the writes is.
fn has_to_initial(last_tags: &[Tag], writes: &[Written]) -> bool
    ensures { result ≡ list_any (to_initial last_tags.now) writes.now }
{
    for write in writes {
        if is_to_initial(last_tags, write) {
            return true;
        }
    }
    false
}

/// Whether one of these writes is to a word whose last tag is initial. Where runs fit the log and made just these writes,
/// there is no placing then.
pub fn is_impossible(log: &RunLog, writes: &[Written]) -> bool
    ensures { TellsImpossible log.now writes.now result }
{
    has_to_initial(log.finals(), writes)
}
