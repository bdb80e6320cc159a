// Where a play up to a cut strays first.
ghost use Rattle.std.specs.Prelude.{◌≡◌, ◌<◌, ◌≤◌, ◌^◌, ◌↔◌, IsTrue, IfOk, MatchOption, length, slice_get};
ghost use Rattle.cut_laws.specs.Cuts.{begun, IsSeenOf};
ghost use Rattle.stopper.specs.Strays.{straying, AreSeenAt, AllFrom, IsFirstOther};
ghost use Rattle.stopper.specs.Strays.{EntriesCompared, SeatCompared, SeatsCompared};

use dep_log::{Entry, RunLog};
use light_base::Memory;
use running_thread::RunningThread;
use running_thread::cells::same_tag;
use std::alloc::Global;

/// What is amiss first in a play up to a cut: the threads are looked at in order, in each its entries in order, and
/// then whether it came as far as its number in the cut.
#[derive(Clone, Copy, Debug, PartialEq, Eq)]
pub enum Stray {
    /// The thread ended before its number: its number in the cut, and how many memory steps it took.
    Ended {
        thread: u8,
        wanted: u32,
        taken: u32,
    },
    /// The thread has something else at this place among its entries than the log: what is logged there, and what was
    /// found, where None is that this side has no further entry up to the thread's number.
    Entry {
        thread: u8,
        entry: u32,
        logged: Option<Entry>,
        found: Option<Entry>,
    },
}

impl Stray {
    /// The thread that strays.
    pub fn thread(&self) -> u8
        ensures { result ≡ straying self.now }
    {
        match self {
            Stray::Ended { thread, .. } => *thread,
            Stray::Entry { thread, .. } => *thread,
        }
    }
}

// Whether what was seen of an entry by this step is what is logged.
fn is_seen_of(number: u32, logged: &Entry, seen: &Entry) -> bool
    ensures { IsTrue result ↔ IsSeenOf number logged.now seen.now }
{
    seen.word == logged.word
        && same_tag(seen.source, logged.source)
        && seen.first == logged.first
        && (seen.last == logged.last || number < logged.last)
}

// Whether what was seen at a place by this step is what is logged there.
fn are_seen_at(number: u32, logged: &Option<Entry>, seen: &Option<Entry>) -> bool
    ensures { IsTrue result ↔ AreSeenAt number logged.now seen.now }
{
    match (logged, seen) {
        (Some(logged), Some(seen)) => is_seen_of(number, logged, seen),
        (None, None) => true,
        _ => false,
    }
}

// What stands at a place, if anything does.
fn entry_at(entries: &[Entry], place: usize) -> Option<Entry>
    ensures { result ≡ slice_get entries.now place }
{
    match entries.get(place) {
        Some(entry) => Some(*entry),
        None => None,
    }
}

// The first place at which something else was seen by this step than is logged.
fn first_other(number: u32, logged: &[Entry], seen: &[Entry]) -> Option<usize>
    ensures { MatchOption result (AllFrom number logged.now seen.now) (IsFirstOther number logged.now seen.now) }
{
    let common = logged.len().min(seen.len());
    for place in 0..common + 1 {
        if !are_seen_at(number, &entry_at(logged, place), &entry_at(seen, place)) {
            return Some(place);
        }
    }
    None
}

// What is amiss first in a thread.
fn thread_stray(
    thread: u8,
    number: u32,
    logged: &[Entry],
    seen: &[Entry],
    taken: u32,
) -> Option<Stray>
    requires few { length logged.now < 2 ^ 32 }
    ensures { EntriesCompared thread number logged.now seen.now taken result }
{
    if let Some(place) = first_other(number, logged, seen) {
        return Some(Stray::Entry {
            thread,
            entry: place as u32,
            logged: entry_at(logged, place),
            found: entry_at(seen, place),
        });
    }
    if taken < number {
        return Some(Stray::Ended {
            thread,
            wanted: number,
            taken,
        });
    }
    None
}

// The entries that have begun by this step.
fn begun_by(alloc: Global, number: u32, entries: &[Entry]) -> Result<Vec<Entry>, Memory>
    ensures value { IfOk result (λ found. found.items ≡ begun number entries.now) }
    ensures few { IfOk result (λ found. length found.items ≤ length entries.now) }
{
    let mut begun = Vec::new(alloc);
    for entry in entries {
        if entry.first <= number {
            begun.push(*entry)?;
        }
    }
    Ok(begun)
}

// What is amiss first in this thread, which has come so far.
fn seat_stray(
    alloc: Global,
    log: &RunLog,
    numbers: &[u32],
    thread: u8,
    seat: &RunningThread,
) -> Result<Option<Stray>, Memory>
    requires thread { thread < length log.now.threads }
    requires numbers { length numbers.now ≡ length log.now.threads }
    ensures { IfOk result (SeatCompared log.now numbers.now thread seat.now) }
{
    let place = usize::from(thread);
    let number = numbers[place];
    let logged = begun_by(alloc, number, log.threads()[place].entries())?;
    let seen = seat.log.entries();
    Ok(thread_stray(thread, number, &logged, seen, seat.core.steps()))
}

// What is amiss first in the threads, which have come so far.
pub(crate) fn first_stray(
    alloc: Global,
    log: &RunLog,
    numbers: &[u32],
    seats: &[RunningThread],
) -> Result<Option<Stray>, Memory>
    requires seats { length seats.now ≡ length log.now.threads }
    requires numbers { length numbers.now ≡ length log.now.threads }
    ensures { IfOk result (SeatsCompared log.now numbers.now seats.now) }
{
    let count = log.threads().len() as u8;
    for thread in 0..count {
        let seat = &seats[usize::from(thread)];
        if let Some(stray) = seat_stray(alloc, log, numbers, thread, seat)? {
            return Ok(Some(stray));
        }
    }
    Ok(None)
}
