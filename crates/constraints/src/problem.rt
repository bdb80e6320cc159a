// The constraints of a log.
ghost use Rattle.std.specs.Prelude.{◌≡◌, ◌+◌, ◌^◌, ◌<◌, length, nat_lt, slice_index, IfOk};
ghost use Rattle.std.specs.List.{count_by, AllPairs};
ghost use Rattle.replay_model.specs.WellFormed.{IsWellFormed};
ghost use Rattle.constraints.specs.Positions.{event_list, counts_of};
ghost use Rattle.constraints.specs.Constraints.{sources_of, last_reads_of, base_of, impossible, group_of};

use crate::edges::{base_edges, is_impossible};
use crate::events::{list_events, thread_counts, thread_starts};
use crate::placed::{place_entries, place_last_tags};
use crate::reads::{last_rows, sorted_keys, sorted_reads, source_rows};
use crate::rows::Rows;
use dep_log::RunLog;
use light_base::{Event, Memory};
use plain_search::Edge;
use std::alloc::Global;
use std::marker::Model;
use std::snapshot::Snapshot;

/// The constraints of a log: what an order of its events has to do so that it respects the log. It names events by their
/// positions in the list of all events.
///
/// It is seen as the log that it was made of.
#[derive(Drop)]
pub struct Problem {
    // Nothing at run time: the log, for the clauses.
    log: Snapshot<RunLog>,
    events: Vec<Event>,
    // Where the events of each thread begin, and at the end the number of events.
    starts: Vec<u32>,
    counts: Vec<u32>,
    base: Vec<Edge>,
    // The sources of each word.
    sources: Rows,
    // The last reads of each source, word after word.
    last_reads: Rows,
    impossible: bool,
}

impl Model for Problem {
    ghost use Rattle.replay_model.specs.Logs.{Log};

    ghost Value = { Log };

    ghost use Rattle.constraints.specs.Problems.{IsProblem};

    ghost view = { λ p. p.log.value };

    ghost invariant = { λ p. IsProblem p.log.value p.events.items p.starts.items p.counts.items p.base.items p.sources p.last_reads p.impossible };
}

// How many of the positions, which rise, are below this one.
fn count_below(positions: &[u32], bound: u32) -> u32
    requires rising { AllPairs (λ p q. p < q) positions.now }
    requires small { length positions.now < 2 ^ 32 }
    ensures { result ≡ count_by (λ p. nat_lt p bound) positions.now }
{
    positions.partition_point(|position| *position < bound) as u32
}

// How many of the positions, which rise, are below the t-th start, and how many below the next.
fn between(positions: &[u32], starts: &[u32], t: usize) -> (u32, u32)
    requires rising { AllPairs (λ p q. p < q) positions.now }
    requires small { length positions.now < 2 ^ 32 }
    requires next { t + 1 < length starts.now }
    ensures begin { result.0 ≡ count_by (λ p. nat_lt p (slice_index starts.now t)) positions.now }
    ensures end { result.1 ≡ count_by (λ p. nat_lt p (slice_index starts.now (t + 1))) positions.now }
{
    (
        count_below(positions, starts[t]),
        count_below(positions, starts[t + 1]),
    )
}

impl Problem {
    /// The constraints of the log.
    pub fn of(alloc: Global, log: &RunLog) -> Result<Problem, Memory>
        ensures { IfOk result (λ problem. problem ≡ log.now) }
    {
        let threads = log.threads().len() as u8;
        let words = log.finals().len() as u16;
        let events = list_events(alloc, log)?;
        let placed = place_entries(alloc, log, &events)?;
        let last_tags = place_last_tags(alloc, log, &events)?;
        let reads = sorted_reads(alloc, &placed)?;
        let keys = sorted_keys(alloc, &reads)?;
        let sources = source_rows(alloc, words, &keys)?;
        let last_reads = last_rows(alloc, &keys, &reads)?;
        let starts = thread_starts(alloc, threads, &events)?;
        let counts = thread_counts(alloc, threads, &events)?;
        let base = base_edges(alloc, &placed, &sources, &last_tags)?;
        Ok(Problem {
            log: Snapshot::of(log),
            events,
            starts,
            counts,
            base,
            sources,
            last_reads,
            impossible: is_impossible(&placed, &last_tags),
        })
    }

    /// The log's events, by thread and then by number. A position is a place in this list.
    pub fn events(&self) -> &[Event]
        ensures value { result.now ≡ event_list self.now }
        ensures rules { IsWellFormed self.now }
        ensures small { length result.now < 2 ^ 32 }
    {
        &self.events
    }

    /// The number of events of each thread.
    pub fn counts(&self) -> &[u32]
        ensures { result.now ≡ counts_of self.now }
    {
        &self.counts
    }

    /// The base edges, by positions, without those of thread order. An edge that arises in two ways stands twice.
    pub fn base(&self) -> &[Edge]
        ensures { result.now ≡ base_of self.now }
    {
        &self.base
    }

    /// The log's number of words.
    pub fn words(&self) -> u16
        ensures { result ≡ length self.now.last_tags }
    {
        self.sources.len() as u16
    }

    /// Whether a word's last tag is initial while some entry of the word has another source. Then no order respects the log.
    pub fn impossible(&self) -> bool
        ensures { result ≡ impossible self.now }
    {
        self.impossible
    }

    /// The positions of the word's sources that are not initial, by rising tag.
    pub fn sources(&self, word: u16) -> &[u32]
        requires { word < length self.now.last_tags }
        ensures { result.now ≡ sources_of self.now word }
    {
        self.sources.row(usize::from(word))
    }

    /// The positions of the last reads of all entries with the word's i-th source, rising.
    pub fn lasts(&self, word: u16, i: u32) -> &[u32]
        requires word { word < length self.now.last_tags }
        requires source { i < length (sources_of self.now word) }
        ensures { result.now ≡ last_reads_of self.now word i }
    {
        self.last_reads
            .row(self.sources.start(usize::from(word)) + i as usize)
    }

    /// The places among the word's sources where those of the thread begin and end.
    pub fn group(&self, word: u16, thread: u8) -> (u32, u32)
        requires word { word < length self.now.last_tags }
        requires thread { thread < length self.now.threads }
        ensures begin { result.0 ≡ (group_of self.now word thread).0 }
        ensures end { result.1 ≡ (group_of self.now word thread).1 }
    {
        between(self.sources(word), &self.starts, usize::from(thread))
    }
}
