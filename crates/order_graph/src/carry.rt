// Carries a lowered clock on to the nodes before it, by a list of the nodes that wait.
ghost use Rattle.std.specs.Prelude.{◌≡◌, ℕ, ◌+◌, ◌*◌, ◌<◌, ◌≤◌, Bool, true, false, List, length, sum};
ghost use Rattle.order_graph.specs.Shapes.{shape, IsStep};
ghost use Rattle.order_graph.specs.Clocks.{IsLowering, HasRoom};
ghost use Rattle.order_graph.specs.Links.{AreLinked};
ghost use Rattle.order_graph.specs.Carrying.{Pulled, Carried, AreNodes, KeepsOpening, Closes, ClosesEdge, TakesEdge};

use crate::clocks::{lower, settle};
use plain_search::Edge;

// Lowers the clock of a node by that of a node after it; where it changed, the node waits. False where memory ran out.
fn pull(threads: usize, clocks: &mut [u32], work: &mut Vec<u32>, from: u32, to: u32) -> bool
    requires from { from * threads + threads ≤ length clocks.old }
    requires to { to * threads + threads ≤ length clocks.old }
    ensures lowering { IsLowering threads from to threads clocks.old clocks.new }
    ensures pulled { result ≡ true → Pulled from clocks.old work.old.items clocks.new work.new.items }
{
    if lower(threads, clocks, from, to) {
        return work.push(from).is_ok();
    }
    true
}

// Lowers each node before this one by its clock. False where memory ran out.
fn lower_into(
    threads: usize,
    lanes: &[u32],
    edges: &[Edge],
    heads: &[usize],
    older: &[usize],
    clocks: &mut [u32],
    work: &mut Vec<u32>,
    node: u32,
) -> bool
    requires room { HasRoom threads lanes.now edges.now (length clocks.old) }
    requires linked { AreLinked (length lanes.now) edges.now heads.now older.now }
    requires node { node < length lanes.now }
    ensures opening { KeepsOpening (shape lanes.now edges.now) threads clocks.old clocks.new }
    ensures carried { result ≡ true → Carried (shape lanes.now edges.now) threads node 0 clocks.old work.old.items clocks.new work.new.items }
{
    let place = node as usize;
    if place > 0 && lanes[place - 1] == lanes[place] {
        if !pull(threads, clocks, work, node - 1, node) {
            return false;
        }
    }
    let mut at = heads[place];
    while at > 0 {
        if !pull(threads, clocks, work, edges[at - 1].from, node) {
            return false;
        }
        at = older[at - 1];
    }
    true
}

// Lowers the nodes before each that waits, until none does. False where memory ran out.
fn carry(
    threads: usize,
    lanes: &[u32],
    edges: &[Edge],
    heads: &[usize],
    older: &[usize],
    clocks: &mut [u32],
    work: &mut Vec<u32>,
) -> bool
    requires room { HasRoom threads lanes.now edges.now (length clocks.old) }
    requires linked { AreLinked (length lanes.now) edges.now heads.now older.now }
    requires nodes { AreNodes (length lanes.now) work.old.items }
    ensures opening { KeepsOpening (shape lanes.now edges.now) threads clocks.old clocks.new }
    ensures closed { result ≡ true → Closes (shape lanes.now edges.now) threads work.old.items clocks.old clocks.new }
{
    while let Some(node) = work.pop() {
        if !lower_into(threads, lanes, edges, heads, older, clocks, work, node) {
            return false;
        }
    }
    true
}

// Lowers clocks along a new edge and on. False where memory ran out.
fn spread(
    threads: usize,
    lanes: &[u32],
    edges: &[Edge],
    heads: &[usize],
    older: &[usize],
    clocks: &mut [u32],
    work: &mut Vec<u32>,
    edge: Edge,
) -> bool
    requires room { HasRoom threads lanes.now edges.now (length clocks.old) }
    requires linked { AreLinked (length lanes.now) edges.now heads.now older.now }
    requires from { edge.from < length lanes.now }
    requires to { edge.to < length lanes.now }
    requires step { IsStep (shape lanes.now edges.now) edge.from edge.to }
    ensures opening { KeepsOpening (shape lanes.now edges.now) threads clocks.old clocks.new }
    ensures closed { result ≡ true → ClosesEdge (shape lanes.now edges.now) threads edge.from edge.to clocks.old clocks.new }
{
    work.clear();
    if !pull(threads, clocks, work, edge.from, edge.to) {
        return false;
    }
    carry(threads, lanes, edges, heads, older, clocks, work)
}

/// Makes the clocks exact again after a new edge.
pub fn insert(
    threads: usize,
    lanes: &[u32],
    edges: &[Edge],
    heads: &[usize],
    older: &[usize],
    clocks: &mut [u32],
    work: &mut Vec<u32>,
    edge: Edge,
)
    requires room { HasRoom threads lanes.now edges.now (length clocks.old) }
    requires linked { AreLinked (length lanes.now) edges.now heads.now older.now }
    requires from { edge.from < length lanes.now }
    requires to { edge.to < length lanes.now }
    requires step { IsStep (shape lanes.now edges.now) edge.from edge.to }
    ensures exact { TakesEdge (shape lanes.now edges.now) threads edge.from edge.to clocks.old clocks.new }
{
    if !spread(threads, lanes, edges, heads, older, clocks, work, edge) {
        settle(threads, lanes, edges, clocks);
    }
}
