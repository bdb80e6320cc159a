// The sides of a pair on a graph.
ghost use Rattle.std.specs.Prelude.{◌≡◌, ◌<◌, ◌++◌, OnOk, OnErr, length};
ghost use Rattle.plain_search.specs.Edges.{is_acyclic};
ghost use Rattle.order_graph.specs.Graphs.{edges_of};
ghost use Rattle.order_solver.specs.Rivals.{AreRivals};
ghost use Rattle.order_solver.specs.Cursors.{IsAt};
ghost use Rattle.order_solver.specs.Sides.{Takes};
ghost use Rattle.order_solver.specs.Frames.{pair_at};
ghost use Rattle.order_solver.specs.Rooms.{SpendsAtMost};

use crate::cursor::Cursor;
use crate::rivals::Rivals;
use crate::sides::{is_open, take_side};
use light_base::Memory;
use order_graph::Graph;

// Whether the lesser side of a pair closes no cycle.
pub fn is_lesser_open<R: Rivals>(rivals: &R, graph: &Graph, at: Cursor) -> bool
    requires rivals { AreRivals (R.rivalry rivals.now) }
    requires counts { graph.now.counts ≡ (R.rivalry rivals.now).counts }
    requires word { at.word < (R.rivalry rivals.now).words }
    requires lesser { at.lesser < at.greater }
    requires greater { at.greater < length ((R.rivalry rivals.now).sources at.word) }
    ensures { result ≡ is_acyclic ((pair_at (R.rivalry rivals.now) at).lesser ++ edges_of graph.now) }
{
    let source = rivals.sources(at.word)[at.greater as usize];
    is_open(graph, rivals.last_reads(at.word, at.lesser), source)
}

// Whether the greater side of a pair closes no cycle.
pub fn is_greater_open<R: Rivals>(rivals: &R, graph: &Graph, at: Cursor) -> bool
    requires rivals { AreRivals (R.rivalry rivals.now) }
    requires counts { graph.now.counts ≡ (R.rivalry rivals.now).counts }
    requires word { at.word < (R.rivalry rivals.now).words }
    requires lesser { at.lesser < at.greater }
    requires greater { at.greater < length ((R.rivalry rivals.now).sources at.word) }
    ensures { result ≡ is_acyclic ((pair_at (R.rivalry rivals.now) at).greater ++ edges_of graph.now) }
{
    let source = rivals.sources(at.word)[at.lesser as usize];
    is_open(graph, rivals.last_reads(at.word, at.greater), source)
}

// Takes the lesser side of a pair where it is open.
pub fn take_lesser<R: Rivals>(rivals: &R, graph: &mut Graph, at: Cursor) -> Result<bool, Memory>
    requires rivals { AreRivals (R.rivalry rivals.now) }
    requires counts { graph.old.counts ≡ (R.rivalry rivals.now).counts }
    requires at { IsAt (R.rivalry rivals.now) at }
    ensures takes { Takes (pair_at (R.rivalry rivals.now) at).lesser graph.old result graph.new }
    ensures spends { OnOk result (SpendsAtMost (length (pair_at (R.rivalry rivals.now) at).lesser) graph.old graph.new) }
    ensures memory { OnErr result (graph.old.spare < length (pair_at (R.rivalry rivals.now) at).lesser) }
{
    let source = rivals.sources(at.word)[at.greater as usize];
    take_side(graph, rivals.last_reads(at.word, at.lesser), source)
}

// Takes the greater side of a pair where it is open.
pub fn take_greater<R: Rivals>(rivals: &R, graph: &mut Graph, at: Cursor) -> Result<bool, Memory>
    requires rivals { AreRivals (R.rivalry rivals.now) }
    requires counts { graph.old.counts ≡ (R.rivalry rivals.now).counts }
    requires at { IsAt (R.rivalry rivals.now) at }
    ensures takes { Takes (pair_at (R.rivalry rivals.now) at).greater graph.old result graph.new }
    ensures spends { OnOk result (SpendsAtMost (length (pair_at (R.rivalry rivals.now) at).greater) graph.old graph.new) }
    ensures memory { OnErr result (graph.old.spare < length (pair_at (R.rivalry rivals.now) at).greater) }
{
    let source = rivals.sources(at.word)[at.lesser as usize];
    take_side(graph, rivals.last_reads(at.word, at.greater), source)
}
