// The graph with which a search begins.
ghost use Rattle.std.specs.Prelude.{◌≡◌, ℕ, ◌+◌, ◌<◌, ◌≤◌, ◌^◌, List, [], length, sum, All};
ghost use Rattle.plain_search.specs.Edges.{Holds};
ghost use Rattle.order_graph.specs.Graphs.{nodes_of};
ghost use Rattle.order_solver.specs.Rivals.{AreRivals};
ghost use Rattle.order_solver.specs.Sides.{Narrows};
ghost use Rattle.order_solver.specs.Cursors.{Chained};
ghost use Rattle.order_solver.specs.Begun.{HoldsRuns, HoldsWords, Begins};

use crate::rivals::Rivals;
use crate::sides::{add_edge, add_side};
use light_base::Memory;
use order_graph::{Added, Graph};
use plain_search::Edge;
use std::alloc::Global;

// Adds edges that have to hold.
fn add_edges(graph: &mut Graph, edges: &[Edge]) -> Result<Added, Memory>
    requires { All (λ e. (e.from < nodes_of graph.old) × (e.to < nodes_of graph.old)) edges.now }
    ensures { Narrows (λ rank. Holds rank edges.now) graph.old result graph.new }
{
    for edge in edges {
        match add_edge(graph, edge.from, edge.to)? {
            Added::In => {}
            Added::Cycle => return Ok(Added::Cycle),
        }
    }
    Ok(Added::In)
}

// Adds that of the sources of one thread, from one place to another, each comes before the next one, with its last reads.
fn add_run<R: Rivals>(
    graph: &mut Graph,
    rivals: &R,
    word: u16,
    from: u32,
    end: u32,
) -> Result<Added, Memory>
    requires rivals { AreRivals (R.rivalry rivals.now) }
    requires counts { graph.old.counts ≡ (R.rivalry rivals.now).counts }
    requires word { word < (R.rivalry rivals.now).words }
    requires end { end ≤ length ((R.rivalry rivals.now).sources word) }
    ensures { Narrows (λ rank. Chained (R.rivalry rivals.now) rank word from end) graph.old result graph.new }
{
    for at in from..end.saturating_sub(1) {
        match add_side(
            graph,
            rivals.last_reads(word, at),
            rivals.sources(word)[at as usize + 1],
        )? {
            Added::In => {}
            Added::Cycle => return Ok(Added::Cycle),
        }
    }
    Ok(Added::In)
}

// The same for all threads.
fn add_word<R: Rivals>(graph: &mut Graph, rivals: &R, word: u16) -> Result<Added, Memory>
    requires rivals { AreRivals (R.rivalry rivals.now) }
    requires counts { graph.old.counts ≡ (R.rivalry rivals.now).counts }
    requires word { word < (R.rivalry rivals.now).words }
    ensures { Narrows (λ rank. HoldsRuns (R.rivalry rivals.now) rank word (length (R.rivalry rivals.now).counts)) graph.old result graph.new }
{
    for thread in 0..rivals.counts().len() {
        let (from, end) = rivals.group(word, thread as u8);
        match add_run(graph, rivals, word, from, end)? {
            Added::In => {}
            Added::Cycle => return Ok(Added::Cycle),
        }
    }
    Ok(Added::In)
}

// The same for all words.
fn add_words<R: Rivals>(graph: &mut Graph, rivals: &R) -> Result<Added, Memory>
    requires rivals { AreRivals (R.rivalry rivals.now) }
    requires counts { graph.old.counts ≡ (R.rivalry rivals.now).counts }
    ensures { Narrows (λ rank. HoldsWords (R.rivalry rivals.now) rank (R.rivalry rivals.now).words) graph.old result graph.new }
{
    for word in 0..rivals.words() {
        match add_word(graph, rivals, word)? {
            Added::In => {}
            Added::Cycle => return Ok(Added::Cycle),
        }
    }
    Ok(Added::In)
}

// The graph of the edges that have to hold; those with a cycle have none.
pub fn begin<R: Rivals>(alloc: Global, rivals: &R) -> Result<Option<Graph>, Memory>
    requires { AreRivals (R.rivalry rivals.now) }
    ensures { Begins (R.rivalry rivals.now) result }
{
    let mut graph = Graph::new(alloc, rivals.counts())?;
    match add_edges(&mut graph, rivals.base())? {
        Added::In => {}
        Added::Cycle => return Ok(None),
    }
    match add_words(&mut graph, rivals)? {
        Added::In => {
            graph.acyclic_law();
            Ok(Some(graph))
        }
        Added::Cycle => Ok(None),
    }
}
