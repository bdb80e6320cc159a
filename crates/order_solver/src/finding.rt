// A search from beginning to end, which takes its memory first.
ghost use Rattle.std.specs.Prelude.{◌≡◌, ◌+◌, ◌^◌, ◌<◌, ◌≤◌, IfOk, OnErr, sum};
ghost use Rattle.order_solver.specs.Rivals.{AreRivals};
ghost use Rattle.order_solver.specs.Rooms.{side_edges_in};
ghost use Rattle.order_solver.specs.Findings.{Finds};
ghost use Rattle.order_solver.specs.Prepared.{IsPrepared, HasMemoryFor, HasSpare};

use crate::begin::begin;
use crate::rivals::Rivals;
use crate::search::{Ending, Frame, explore};
use light_base::Memory;
use order_graph::Graph;
use std::alloc::Global;

/// What a search found.
#[derive(Drop)]
pub enum Finding {
    /// All nodes in a row. The edges that have to hold rise along it, and so does one side of each pair.
    Line(Vec<u32>),
    /// There is no such row.
    None,
    /// The search met more dead ends than it may.
    Spent,
}

/// What a search works with: the graph with which it begins, where the edges that have to hold have no cycle, and memory for
/// its frames and for a row of all nodes.
#[derive(Drop)]
pub struct Prepared {
    pub graph: Option<Graph>,
    pub frames: Vec<Frame>,
    pub line: Vec<u32>,
}

// The number of nodes.
fn nodes_of(counts: &[u32]) -> usize
    requires { sum counts.now < 2 ^ 32 }
    ensures { result ≡ sum counts.now }
{
    let mut nodes: usize = 0;
    for count in counts {
        nodes += *count as usize;
    }
    nodes
}

// The graph with memory for so many more edges.
fn with_spare(mut graph: Graph, adds: u32) -> Result<Graph, Memory>
    ensures { IfOk result (λ g. HasSpare adds graph g) }
{
    graph.reserve(adds)?;
    Ok(graph)
}

/// Takes memory for a search: for the graph and this many edges of sides that it may take, for a frame at each of them, and for
/// a row of all nodes.
pub fn prepare<R: Rivals>(alloc: Global, rivals: &R, side_edges: u32) -> Result<Prepared, Memory>
    requires { AreRivals (R.rivalry rivals.now) }
    ensures prepared { IfOk result (λ prepared. IsPrepared (R.rivalry rivals.now) prepared) }
    ensures memory { IfOk result (λ prepared. HasMemoryFor side_edges prepared) }
{
    let graph = match begin(alloc, rivals)? {
        Some(graph) => Some(with_spare(graph, side_edges)?),
        None => None,
    };
    Ok(Prepared {
        graph,
        frames: Vec::with_capacity(alloc, side_edges as usize)?,
        line: Vec::with_capacity(alloc, nodes_of(rivals.counts()))?,
    })
}

/// The exact search, with at most so many dead ends. It wants no memory where it was taken for the edges of the longer side of
/// each pair.
pub fn search_line<R: Rivals>(
    rivals: &R,
    prepared: Prepared,
    budget: u32,
) -> Result<Finding, Memory>
    requires rivals { AreRivals (R.rivalry rivals.now) }
    requires prepared { IsPrepared (R.rivalry rivals.now) prepared }
    ensures finds { Finds (R.rivalry rivals.now) budget result }
    ensures memory { OnErr result (HasMemoryFor (side_edges_in (R.rivalry rivals.now)) prepared → ⊥) }
{
    let Prepared {
        graph,
        mut frames,
        mut line,
    } = prepared;
    let Some(mut graph) = graph else {
        return Ok(Finding::None);
    };
    match explore(rivals, &mut graph, &mut frames, budget)? {
        Ending::Found => {
            graph.ends_law();
            graph.fill_order(&mut line);
            Ok(Finding::Line(line))
        }
        Ending::None => Ok(Finding::None),
        Ending::Spent => Ok(Finding::Spent),
    }
}
