// The sides of pairs on a graph: edges from the last reads of one source to another source.
ghost use Rattle.std.specs.Prelude.{◌≡◌, ℕ, ◌<◌, ◌++◌, ◌↔◌, IsTrue, true, All, OnOk, OnErr, length};
ghost use Rattle.plain_search.specs.Edges.{is_acyclic, Holds, Implies};
ghost use Rattle.order_graph.specs.Graphs.{edges_of, nodes_of};
ghost use Rattle.constraints.specs.Constraints.{edges_to};
ghost use Rattle.order_solver.specs.Sides.{Narrows, Takes};
ghost use Rattle.order_solver.specs.Rooms.{SpendsAtMost};

use light_base::Memory;
use order_graph::{Added, Graph};

// Whether a side closes no cycle: its end leads to none of its starts.
pub fn is_open(graph: &Graph, last_reads: &[u32], source: u32) -> bool
    requires source { source < nodes_of graph.now }
    requires last_reads { All (λ l. l < nodes_of graph.now) last_reads.now }
    ensures { result ≡ is_acyclic (edges_to last_reads.now source ++ edges_of graph.now) }
{
    graph.acyclic_law();
    for last in last_reads {
        if *last != source && graph.before(source, *last) {
            return false;
        }
    }
    true
}

// Whether the graph implies a side.
pub fn is_implied(graph: &Graph, last_reads: &[u32], source: u32) -> bool
    requires source { source < nodes_of graph.now }
    requires last_reads { All (λ l. l < nodes_of graph.now) last_reads.now }
    ensures { IsTrue result ↔ Implies (edges_of graph.now) (edges_to last_reads.now source) }
{
    graph.acyclic_law();
    for last in last_reads {
        if *last != source && !graph.before(*last, source) {
            return false;
        }
    }
    true
}

// Adds an edge that has to hold, where the graph does not imply it.
pub fn add_edge(graph: &mut Graph, from: u32, to: u32) -> Result<Added, Memory>
    requires from { from < nodes_of graph.old }
    requires to { to < nodes_of graph.old }
    ensures narrows { Narrows (λ rank. rank from < rank to) graph.old result graph.new }
    ensures spends { OnOk result (SpendsAtMost 1 graph.old graph.new) }
    ensures memory { OnErr result (graph.old.spare < 1) }
{
    if graph.before(from, to) {
        return Ok(Added::In);
    }
    graph.add(from, to)
}

// Adds a side that has to hold, the last of its starts first: earlier ones of a thread are implied then.
pub fn add_side(graph: &mut Graph, last_reads: &[u32], source: u32) -> Result<Added, Memory>
    requires source { source < nodes_of graph.old }
    requires last_reads { All (λ l. l < nodes_of graph.old) last_reads.now }
    ensures narrows { Narrows (λ rank. Holds rank (edges_to last_reads.now source)) graph.old result graph.new }
    ensures spends { OnOk result (SpendsAtMost (length (edges_to last_reads.now source)) graph.old graph.new) }
    ensures memory { OnErr result (graph.old.spare < length (edges_to last_reads.now source)) }
{
    let mut left = last_reads.len();
    while left > 0 {
        left -= 1;
        if last_reads[left] != source {
            match add_edge(graph, last_reads[left], source)? {
                Added::In => {}
                Added::Cycle => return Ok(Added::Cycle),
            }
        }
    }
    Ok(Added::In)
}

// Adds a side where it closes no cycle, else changes nothing.
pub fn take_side(graph: &mut Graph, last_reads: &[u32], source: u32) -> Result<bool, Memory>
    requires source { source < nodes_of graph.old }
    requires last_reads { All (λ l. l < nodes_of graph.old) last_reads.now }
    ensures takes { Takes (edges_to last_reads.now source) graph.old result graph.new }
    ensures spends { OnOk result (SpendsAtMost (length (edges_to last_reads.now source)) graph.old graph.new) }
    ensures memory { OnErr result (graph.old.spare < length (edges_to last_reads.now source)) }
{
    if !is_open(graph, last_reads, source) {
        return Ok(false);
    }
    let _added = add_side(graph, last_reads, source)?;
    Ok(true)
}
