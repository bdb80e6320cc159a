// The entries of a thread's accesses.
ghost use Rattle.std.specs.Prelude.{◌≡◌, List, IfOk, OnOk};
ghost use Rattle.std.specs.HashMap.{get};
ghost use Rattle.replay_model.specs.MoreReads.{with_read};
ghost use Rattle.replay_model.specs.Steps.{Step, accesses_from};
ghost use Rattle.replay_model.specs.ThreadLogs.{thread_log};
ghost use Rattle.dep_log.specs.AccessLogs.{RiseAbove, access_log};
ghost use Rattle.dep_log.specs.Places.{FindsEntries, same_sighting};

use light_base::{Event, Memory, Tag};
use replay_model::{Access, Entry};
use std::alloc::Global;
use std::collections::HashMap;

// What a reading access found: a word, and who had written it.
#[derive(Clone, Copy, PartialEq, Eq, Hash)]
struct Sighting {
    word: u16,
    writer: Option<Event>,
}

// Where the entry of each sighting stands.
type Places = HashMap<Sighting, usize>;

/// The entries of accesses whose steps rise from 1 on: one for each pair of word and tag that a reading access saw,
/// with the first and the last such step.
pub fn entries_of(alloc: Global, accesses: &[Access]) -> Result<Vec<Entry>, Memory>
    requires { RiseAbove 0 accesses.now }
    ensures value { IfOk result (λ entries. entries.items ≡ access_log accesses.now) }
    // Where these are the steps of a thread, its log.
    ensures thread { IfOk result (λ entries. (steps : List Step) → accesses.now ≡ accesses_from 1 steps → entries.items ≡ thread_log steps) }
{
    let mut entries = Vec::new(alloc);
    let mut places = HashMap::new(alloc);
    for access in accesses {
        if let Some(cell) = access.saw {
            add_read(
                access.word,
                cell.tag,
                access.step,
                &mut entries,
                &mut places,
            )?;
        }
    }
    Ok(entries)
}

// Adds that a step found this tag in this word to the entries of the steps before it.
fn add_read(
    word: u16,
    source: Tag,
    step: u32,
    entries: &mut Vec<Entry>,
    places: &mut Places,
) -> Result<(), Memory>
    requires { FindsEntries (get same_sighting places.old) entries.old.items }
    ensures entries { OnOk result (entries.new.items ≡ with_read word source step entries.old.items) }
    ensures places { OnOk result (FindsEntries (get same_sighting places.new) entries.new.items) }
{
    let sighting = Sighting {
        word,
        writer: source.writer(),
    };
    if let Some(place) = places.get(&sighting).copied() {
        entries[place].last = step;
    } else {
        places.insert(sighting, entries.len())?;
        entries.push(Entry {
            word,
            source,
            first: step,
            last: step,
        })?;
    }
    Ok(())
}
