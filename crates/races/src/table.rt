// For each source of a word and each thread, before how many of the thread's sources it may not come.
ghost use Rattle.std.specs.Prelude.{◌≡◌, ◌+◌, ◌-◌, ◌*◌, ◌<◌, ◌≤◌, OnOk, IfOk, length, slice_index, take};
ghost use Rattle.constraints.specs.Constraints.{sources_of, group_of};
ghost use Rattle.races.specs.Shut.{IsBase, shuts};
ghost use Rattle.races.specs.Tables.{AreStarts, AreFronts, AreEnds, IsTable, IsRow};

use crate::bounds::{floors_of, tops_of};
use crate::shut::{Source, shut_end};
use constraints::Problem;
use light_base::Memory;
use order_graph::Graph;
use std::alloc::Global;

/// A table of a word's sources and the threads.
#[derive(Drop)]
pub struct Table {
    pub threads: usize,
    pub sources: usize,
    // Where the sources of each thread begin, and at the end their number.
    pub starts: Vec<u32>,
    // Source after source, for each thread the place after the last of its sources before which this one may not come.
    pub ends: Vec<u32>,
    // In the same places, no less than these ends of this source and of those before it of its thread.
    pub tops: Vec<u32>,
    // And no more than those of this source and of those behind it of its thread.
    pub floors: Vec<u32>,
}

/// A source of a word, by its place, with its thread.
#[derive(Clone, Copy)]
pub struct Row {
    pub word: u16,
    pub place: u32,
    pub thread: usize,
}

// Where each thread's sources of the word begin, and at the end their number.
fn starts_of(alloc: Global, problem: &Problem, word: u16) -> Result<Vec<u32>, Memory>
    requires { word < length problem.now.last_tags }
    ensures { IfOk result (λ starts. AreStarts problem.now word starts.items) }
{
    let _events = problem.events();
    let mut starts = Vec::new(alloc);
    starts.push(0)?;
    for thread in 0..problem.counts().len() {
        starts.push(problem.group(word, thread as u8).1)?;
    }
    Ok(starts)
}

// Appends the ends of one source's fronts.
fn push_row(
    problem: &Problem,
    graph: &Graph,
    source: Source,
    ends: &mut Vec<u32>,
) -> Result<(), Memory>
    requires base { IsBase problem.now graph.now }
    requires word { source.word < length problem.now.last_tags }
    requires place { source.place < length (sources_of problem.now source.word) }
    requires ends { AreEnds problem.now source.word (length problem.now.threads) source.place ends.old.items }
    ensures { OnOk result (AreEnds problem.now source.word (length problem.now.threads) (source.place + 1) ends.new.items) }
{
    let _events = problem.events();
    for thread in 0..problem.counts().len() {
        ends.push(shut_end(problem, graph, source, thread as u8))?;
    }
    Ok(())
}

// The ends of the fronts of all sources of the word.
fn ends_of(alloc: Global, problem: &Problem, graph: &Graph, word: u16) -> Result<Vec<u32>, Memory>
    requires base { IsBase problem.now graph.now }
    requires word { word < length problem.now.last_tags }
    ensures { IfOk result (λ ends. AreEnds problem.now word (length problem.now.threads) (length (sources_of problem.now word)) ends.items) }
{
    let _events = problem.events();
    let mut ends = Vec::new(alloc);
    for place in 0..problem.sources(word).len() {
        let source = Source {
            word,
            place: place as u32,
        };
        push_row(problem, graph, source, &mut ends)?;
    }
    Ok(ends)
}

/// The table of a word.
pub fn table_of(alloc: Global, problem: &Problem, graph: &Graph, word: u16) -> Result<Table, Memory>
    requires base { IsBase problem.now graph.now }
    requires word { word < length problem.now.last_tags }
    ensures { IfOk result (λ table. IsTable problem.now word table) }
{
    let starts = starts_of(alloc, problem, word)?;
    let ends = ends_of(alloc, problem, graph, word)?;
    let _events = problem.events();
    let threads = problem.counts().len();
    let tops = tops_of(alloc, &starts, &ends, threads)?;
    let floors = floors_of(alloc, &starts, &ends, threads)?;
    Ok(Table {
        threads,
        sources: problem.sources(word).len(),
        starts,
        ends,
        tops,
        floors,
    })
}

// A source with its thread.
pub fn row_of(problem: &Problem, table: &Table, source: Source) -> Row
    requires table { IsTable problem.now source.word table.now }
    requires place { source.place < length (sources_of problem.now source.word) }
    ensures row { IsRow problem.now result }
    ensures word { result.word ≡ source.word }
    ensures place { result.place ≡ source.place }
{
    let mut thread = 0;
    while thread < table.threads && table.starts[thread + 1] <= source.place {
        thread += 1;
    }
    Row {
        word: source.word,
        place: source.place,
        thread,
    }
}
