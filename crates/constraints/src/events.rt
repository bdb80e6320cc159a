// The events of a log, and positions among them.
ghost use Rattle.std.specs.Prelude.{◌≡◌, ◌+◌, ◌*◌, ◌≤◌, ◌^◌, ◌<◌, length, All, IfOk, OnOk, ◌++◌, Contains};
ghost use Rattle.std.specs.List.{filter_map, flat_map};
ghost use Rattle.light_base.specs.Tags.{HasTag};
ghost use Rattle.replay_model.specs.Logs.{first_event, last_event};
ghost use Rattle.replay_model.specs.Orders.{place};
ghost use Rattle.replay_model.specs.WellFormed.{IsWellFormed};
ghost use Rattle.constraints.specs.Positions.{event_list, is_before, IsListed};
ghost use Rattle.constraints.specs.Building.{mentioned_by, mentioned_tags, event_counts, started_before, starts_of};

use dep_log::{Entry, RunLog};
use light_base::{Event, Memory, Tag};
use std::alloc::Global;

// How many entries the log has.
fn entry_count(log: &RunLog) -> usize
    ensures { result ≤ 15 * 16384 }
{
    let mut count = 0;
    for thread in log.threads() {
        count += thread.entries().len();
    }
    count
}

// Adds the tags that entries of the thread name.
fn mention(thread: u8, entries: &[Entry], tags: &mut Vec<Tag>) -> Result<(), Memory>
    requires first { All (λ entry. HasTag (first_event thread entry)) entries.now }
    requires last { All (λ entry. HasTag (last_event thread entry)) entries.now }
    ensures { OnOk result (tags.new.items ≡ tags.old.items ++ flat_map (mentioned_by thread) entries.now) }
{
    for entry in entries {
        tags.push(entry.source)?;
        let first = Event {
            thread,
            step: entry.first,
        };
        tags.push(first.tag())?;
        let last = Event {
            thread,
            step: entry.last,
        };
        tags.push(last.tag())?;
    }
    Ok(())
}

// The tags that the log names, in the order in which it names them.
fn mentioned(alloc: Global, log: &RunLog) -> Result<Vec<Tag>, Memory>
    ensures value { IfOk result (λ tags. tags.items ≡ mentioned_tags log.now) }
    ensures rules { IsWellFormed log.now }
{
    let last_tags = log.finals();
    let mut tags = Vec::with_capacity(alloc, 3 * entry_count(log) + last_tags.len())?;
    for (t, thread) in log.threads().iter().enumerate() {
        mention(t as u8, thread.entries(), &mut tags)?;
    }
    tags.extend_from_slice(last_tags)?;
    Ok(tags)
}

// The events among tags.
fn writers(alloc: Global, tags: &[Tag]) -> Result<Vec<Event>, Memory>
    ensures { IfOk result (λ events. events.items ≡ filter_map (λ tag. tag) tags.now) }
{
    let events = tags.iter().filter_map(|tag| tag.writer()).collect(alloc)?;
    Ok(events)
}

/// The log's events, by thread and then by number.
pub fn list_events(alloc: Global, log: &RunLog) -> Result<Vec<Event>, Memory>
    ensures rules { IsWellFormed log.now }
    ensures value { IfOk result (λ events. events.items ≡ event_list log.now) }
{
    let mut tags = mentioned(alloc, log)?;
    tags.sort_unstable();
    tags.dedup();
    writers(alloc, &tags)
}

// Whether the one event comes before the other: by thread, and then by number.
fn precedes(a: &Event, b: &Event) -> bool
    ensures { result ≡ is_before a.now b.now }
{
    a.thread < b.thread || (a.thread == b.thread && a.step < b.step)
}

/// The position of an event in a list of events that goes by thread and then by number.
pub fn position(events: &[Event], event: Event) -> u32
    requires order { IsListed events.now }
    requires listed { Contains events.now event }
    requires small { length events.now < 2 ^ 32 }
    ensures { result ≡ place events.now event }
{
    events.partition_point(|other| precedes(other, &event)) as u32
}

/// How many events the threads before thread t have.
pub fn thread_start(events: &[Event], t: u8) -> u32
    requires order { IsListed events.now }
    requires small { length events.now < 2 ^ 32 }
    ensures { result ≡ started_before events.now t }
{
    events.partition_point(|event| event.thread < t) as u32
}

/// Where the events of each thread begin, and at the end the number of events.
#[tactic(auto, using(crate::proofs::Naming::map_range_more))]
pub fn thread_starts(alloc: Global, threads: u8, events: &[Event]) -> Result<Vec<u32>, Memory>
    requires threads { threads ≤ 15 }
    requires order { IsListed events.now }
    requires small { length events.now < 2 ^ 32 }
    ensures { IfOk result (λ starts. starts.items ≡ starts_of events.now threads) }
{
    let mut starts = Vec::with_capacity(alloc, usize::from(threads) + 1)?;
    for t in 0..threads + 1 {
        starts.push(thread_start(events, t))?;
    }
    Ok(starts)
}

/// The number of events of each thread.
#[tactic(auto, using(crate::proofs::Naming::map_range_more))]
pub fn thread_counts(alloc: Global, threads: u8, events: &[Event]) -> Result<Vec<u32>, Memory>
    requires threads { threads ≤ 15 }
    requires order { IsListed events.now }
    requires small { length events.now < 2 ^ 32 }
    ensures { IfOk result (λ counts. counts.items ≡ event_counts events.now threads) }
{
    let mut counts = Vec::with_capacity(alloc, usize::from(threads))?;
    for t in 0..threads {
        counts.push(thread_start(events, t + 1) - thread_start(events, t))?;
    }
    Ok(counts)
}
