// The entries and last tags of a log, by positions of events.
ghost use Rattle.std.specs.Prelude.{◌≡◌, ◌<◌, ◌^◌, ◌++◌, length, map, All, IfOk, OnOk, IfSome, Contains, option_map};
ghost use Rattle.replay_model.specs.Logs.{first_event, last_event};
ghost use Rattle.replay_model.specs.Orders.{place};
ghost use Rattle.constraints.specs.Positions.{event_list, IsListed};
ghost use Rattle.constraints.specs.Building.{HasEvents, placed_in, placed_entries, placed_last_tags};

use crate::events::position;
use dep_log::{Entry, RunLog};
use light_base::{Event, Memory, Tag};
use std::alloc::Global;

/// An entry by positions: its word, its source, where that is not initial, its first and its last.
#[derive(Clone, Copy, Debug, PartialEq, Eq)]
pub struct Placed {
    pub word: u16,
    pub source: Option<u32>,
    pub first: u32,
    pub last: u32,
}

// The position of a tag's event.
fn place_tag(events: &[Event], tag: Tag) -> Option<u32>
    requires order { IsListed events.now }
    requires small { length events.now < 2 ^ 32 }
    requires listed { IfSome tag (λ event. Contains events.now event) }
    ensures { result ≡ option_map (place events.now) tag }
{
    match tag.writer() {
        Some(event) => Some(position(events, event)),
        None => None,
    }
}

// An entry of the thread by positions.
fn place_entry(events: &[Event], thread: u8, entry: &Entry) -> Placed
    requires order { IsListed events.now }
    requires small { length events.now < 2 ^ 32 }
    requires listed { HasEvents events.now thread entry.now }
    ensures { result ≡ placed_in events.now thread entry.now }
{
    let first = Event {
        thread,
        step: entry.first,
    };
    let last = Event {
        thread,
        step: entry.last,
    };
    Placed {
        word: entry.word,
        source: place_tag(events, entry.source),
        first: position(events, first),
        last: position(events, last),
    }
}

// Adds the entries of the thread by positions.
fn place_thread(
    events: &[Event],
    thread: u8,
    entries: &[Entry],
    placed: &mut Vec<Placed>,
) -> Result<(), Memory>
    requires order { IsListed events.now }
    requires small { length events.now < 2 ^ 32 }
    requires listed { All (HasEvents events.now thread) entries.now }
    ensures { OnOk result (placed.new.items ≡ placed.old.items ++ map (placed_in events.now thread) entries.now) }
{
    for entry in entries {
        placed.push(place_entry(events, thread, entry))?;
    }
    Ok(())
}

/// The log's entries by positions, thread after thread.
pub fn place_entries(alloc: Global, log: &RunLog, events: &[Event]) -> Result<Vec<Placed>, Memory>
    requires { events.now ≡ event_list log.now }
    ensures { IfOk result (λ placed. placed.items ≡ placed_entries log.now) }
{
    let mut placed = Vec::new(alloc);
    for (t, thread) in log.threads().iter().enumerate() {
        place_thread(events, t as u8, thread.entries(), &mut placed)?;
    }
    Ok(placed)
}

/// The words' last tags by positions.
pub fn place_last_tags(
    alloc: Global,
    log: &RunLog,
    events: &[Event],
) -> Result<Vec<Option<u32>>, Memory>
    requires { events.now ≡ event_list log.now }
    ensures { IfOk result (λ last_tags. last_tags.items ≡ placed_last_tags log.now) }
{
    let tags = log.finals();
    let mut last_tags = Vec::with_capacity(alloc, tags.len())?;
    for tag in tags {
        last_tags.push(place_tag(events, *tag))?;
    }
    Ok(last_tags)
}
