// Entries, last tags and writes by positions in a list of steps.
ghost use Rattle.std.specs.Prelude.{◌≡◌, ◌<◌, ◌^◌, ◌++◌, length, map, All, IfOk, OnOk, IfSome, Contains, option_map};
ghost use Rattle.std.specs.List.{flat_map, filter_map};
ghost use Rattle.replay_model.specs.Logs.{thread_of};
ghost use Rattle.replay_model.specs.Orders.{place};
ghost use Rattle.constraints.specs.Positions.{thread_numbers, is_before, IsListed};
ghost use Rattle.constraints.specs.Building.{HasEvents, placed_in};
ghost use Rattle.audit.specs.Tables.{HasSteps, placed_entries_in, write_mark, read_mark};

use crate::rows::Mark;
use constraints::Placed;
use dep_log::{Entry, RunLog};
use light_base::{Event, Memory, Tag};
use replayer::Written;
use std::alloc::Global;

// Whether the one step comes before the other: by thread, and then by number.
fn precedes(a: &Event, b: &Event) -> bool
    ensures { result ≡ is_before a.now b.now }
{
    a.thread < b.thread || (a.thread == b.thread && a.step < b.step)
}

// The position of a step in a list of steps that goes by thread and then by number.
fn position(steps: &[Event], step: Event) -> u32
    requires order { IsListed steps.now }
    requires listed { Contains steps.now step }
    requires small { length steps.now < 2 ^ 32 }
    ensures { result ≡ place steps.now step }
{
    steps.partition_point(|other| precedes(other, &step)) as u32
}

// The position of a tag's step.
fn place_tag(steps: &[Event], tag: Tag) -> Option<u32>
    requires order { IsListed steps.now }
    requires small { length steps.now < 2 ^ 32 }
    requires listed { IfSome tag (λ step. Contains steps.now step) }
    ensures { result ≡ option_map (place steps.now) tag }
{
    match tag.writer() {
        Some(step) => Some(position(steps, step)),
        None => None,
    }
}

// An entry of the thread by positions.
fn place_entry(steps: &[Event], thread: u8, entry: &Entry) -> Placed
    requires order { IsListed steps.now }
    requires small { length steps.now < 2 ^ 32 }
    requires listed { HasEvents steps.now thread entry.now }
    ensures { result ≡ placed_in steps.now thread entry.now }
{
    let first = Event {
        thread,
        step: entry.first,
    };
    let last = Event {
        thread,
        step: entry.last,
    };
    Placed {
        word: entry.word,
        source: place_tag(steps, entry.source),
        first: position(steps, first),
        last: position(steps, last),
    }
}

// Adds the entries of the thread by positions.
fn place_thread(
    steps: &[Event],
    thread: u8,
    entries: &[Entry],
    placed: &mut Vec<Placed>,
) -> Result<(), Memory>
    requires order { IsListed steps.now }
    requires small { length steps.now < 2 ^ 32 }
    requires listed { All (HasEvents steps.now thread) entries.now }
    ensures { OnOk result (placed.new.items ≡ placed.old.items ++ map (placed_in steps.now thread) entries.now) }
{
    for entry in entries {
        placed.push(place_entry(steps, thread, entry))?;
    }
    Ok(())
}

/// The log's entries by positions, thread after thread.
pub(crate) fn place_entries(
    alloc: Global,
    log: &RunLog,
    steps: &[Event],
) -> Result<Vec<Placed>, Memory>
    requires { HasSteps steps.now log.now }
    ensures { IfOk result (λ placed. placed.items ≡ placed_entries_in steps.now log.now) }
{
    let mut placed = Vec::new(alloc);
    for (t, thread) in log.threads().iter().enumerate() {
        place_thread(steps, t as u8, thread.entries(), &mut placed)?;
    }
    Ok(placed)
}

/// The words' last tags by positions.
pub(crate) fn place_last_tags(
    alloc: Global,
    log: &RunLog,
    steps: &[Event],
) -> Result<Vec<Option<u32>>, Memory>
    requires { HasSteps steps.now log.now }
    ensures { IfOk result (λ last_tags. last_tags.items ≡ map (option_map (place steps.now)) log.now.last_tags) }
{
    let tags = log.finals();
    let mut last_tags = Vec::with_capacity(alloc, tags.len())?;
    for tag in tags {
        last_tags.push(place_tag(steps, *tag))?;
    }
    Ok(last_tags)
}

/// The writes by positions, each in the row of its word.
pub(crate) fn mark_writes(
    alloc: Global,
    steps: &[Event],
    writes: &[Written],
) -> Result<Vec<Mark>, Memory>
    requires order { IsListed steps.now }
    requires small { length steps.now < 2 ^ 32 }
    requires listed { All (λ write. Contains steps.now write.event) writes.now }
    ensures { IfOk result (λ marks. marks.items ≡ map (write_mark steps.now) writes.now) }
{
    let mut marks = Vec::with_capacity(alloc, writes.len())?;
    for write in writes {
        marks.push(Mark {
            row: u32::from(write.word),
            number: position(steps, write.event),
        })?;
    }
    Ok(marks)
}

// The last read that an entry tells of, in the row of its source, where that is not initial.
fn mark_of(placed: &Placed) -> Option<Mark>
    ensures { result ≡ read_mark placed.now }
{
    match placed.source {
        Some(source) => Some(Mark {
            row: source,
            number: placed.last,
        }),
        None => None,
    }
}

/// The last reads that entries tell of, each in the row of its source.
pub(crate) fn mark_reads(alloc: Global, placed: &[Placed]) -> Result<Vec<Mark>, Memory>
    ensures { IfOk result (λ marks. marks.items ≡ filter_map read_mark placed.now) }
{
    let marks = placed.iter().filter_map(mark_of).collect(alloc)?;
    Ok(marks)
}
