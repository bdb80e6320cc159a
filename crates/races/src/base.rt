// The graph of the base edges.
ghost use Rattle.std.specs.Prelude.{◌≡◌, ◌<◌, IfOk, MatchOption, false, All};
ghost use Rattle.plain_search.specs.Edges.{is_acyclic, Holds};
ghost use Rattle.order_graph.specs.Graphs.{nodes_of};
ghost use Rattle.races.specs.Narrowing.{Narrows};
ghost use Rattle.races.specs.Shut.{base_edges, IsBase};

use constraints::Problem;
use light_base::Memory;
use order_graph::{Added, Graph};
use plain_search::Edge;
use std::alloc::Global;

// Adds an edge that has to hold, where the graph does not imply it.
fn add_edge(graph: &mut Graph, edge: Edge) -> Result<Added, Memory>
    requires from { edge.from < nodes_of graph.old }
    requires to { edge.to < nodes_of graph.old }
    ensures { Narrows (λ rank. rank edge.from < rank edge.to) graph.old result graph.new }
{
    if graph.before(edge.from, edge.to) {
        return Ok(Added::In);
    }
    graph.add(edge.from, edge.to)
}

// Adds edges that have to hold.
fn add_edges(graph: &mut Graph, edges: &[Edge]) -> Result<Added, Memory>
    requires { All (λ e. (e.from < nodes_of graph.old) × (e.to < nodes_of graph.old)) edges.now }
    ensures { Narrows (λ rank. Holds rank edges.now) graph.old result graph.new }
{
    for edge in edges {
        match add_edge(graph, *edge)? {
            Added::In => {}
            Added::Cycle => return Ok(Added::Cycle),
        }
    }
    Ok(Added::In)
}

/// The graph of the base edges. None exactly where they have a cycle.
pub fn base_graph(alloc: Global, problem: &Problem) -> Result<Option<Graph>, Memory>
    ensures { IfOk result (λ graph. MatchOption graph (is_acyclic (base_edges problem.now) ≡ false) (IsBase problem.now)) }
{
    let _events = problem.events();
    let mut graph = Graph::new(alloc, problem.counts())?;
    match add_edges(&mut graph, problem.base())? {
        Added::In => Ok(Some(graph)),
        Added::Cycle => Ok(None),
    }
}
