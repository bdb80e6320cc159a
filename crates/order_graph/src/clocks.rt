// The clock of a node has a number for each thread: the least node of that thread that it leads to, itself included.
ghost use Rattle.std.specs.Prelude.{◌≡◌, ℕ, ◌+◌, ◌*◌, ◌<◌, ◌≤◌, Bool, true, false, List, length, slice_index, sum};
ghost use Rattle.order_graph.specs.Shapes.{shape};
ghost use Rattle.order_graph.specs.Clocks.{Lowered, HasRoom, Swept, IsClosed, IsNextClosed, AreEdgesClosed, IsOpening, IsExact};

use plain_search::Edge;

/// The place of a thread that a node does not lead to.
pub const NONE: u32 = u32::MAX;

// Lowers the clock of a node by the clock of a node after it. Whether it changed.
pub fn lower(threads: usize, clocks: &mut [u32], from: u32, to: u32) -> bool
    requires from { from * threads + threads ≤ length clocks.old }
    requires to { to * threads + threads ≤ length clocks.old }
    ensures { Lowered threads from to clocks.old clocks.new result }
{
    let mut changed = false;
    for thread in 0..threads {
        let reached = clocks[to as usize * threads + thread];
        let place = from as usize * threads + thread;
        if reached < clocks[place] {
            clocks[place] = reached;
            changed = true;
        }
    }
    changed
}

// Lowers each node's clock by the next one's of its thread, the last first. Whether one changed.
fn sweep_chains(threads: usize, lanes: &[u32], edges: &[Edge], clocks: &mut [u32]) -> bool
    requires { HasRoom threads lanes.now edges.now (length clocks.old) }
    ensures swept { Swept (shape lanes.now edges.now) threads clocks.old clocks.new result }
    ensures closed { result ≡ false → IsNextClosed lanes.now threads clocks.new }
{
    let mut changed = false;
    for k in 1..lanes.len() {
        let node = lanes.len() - k;
        if lanes[node - 1] == lanes[node] {
            let moved = lower(threads, clocks, (node - 1) as u32, node as u32);
            changed = changed || moved;
        }
    }
    changed
}

// Lowers the clock of each edge's start by that of its end. Whether one changed.
fn sweep_edges(threads: usize, lanes: &[u32], edges: &[Edge], clocks: &mut [u32]) -> bool
    requires { HasRoom threads lanes.now edges.now (length clocks.old) }
    ensures swept { Swept (shape lanes.now edges.now) threads clocks.old clocks.new result }
    ensures closed { result ≡ false → AreEdgesClosed edges.now threads clocks.new }
{
    let mut changed = false;
    for edge in edges {
        let moved = lower(threads, clocks, edge.from, edge.to);
        changed = changed || moved;
    }
    changed
}

// Lowers clocks until none changes.
pub fn settle(threads: usize, lanes: &[u32], edges: &[Edge], clocks: &mut [u32])
    requires { HasRoom threads lanes.now edges.now (length clocks.old) }
    ensures exact { IsOpening (shape lanes.now edges.now) threads clocks.old → IsExact (shape lanes.now edges.now) threads clocks.new }
{
    'sweeps: loop {
        let inner = sweep_chains(threads, lanes, edges, clocks);
        let outer = sweep_edges(threads, lanes, edges, clocks);
        if !inner && !outer {
            return;
        }
    }
}

// The clocks of nodes between which there is no edge.
fn open(threads: usize, lanes: &[u32], edges: &[Edge], clocks: &mut [u32])
    requires { HasRoom threads lanes.now edges.now (length clocks.old) }
    ensures { IsOpening (shape lanes.now edges.now) threads clocks.new }
{
    for place in clocks.iter_mut() {
        *place = NONE;
    }
    for node in 0..lanes.len() {
        clocks[node * threads + lanes[node] as usize] = node as u32;
    }
}

// The clocks of the nodes, computed anew.
pub fn compute(threads: usize, lanes: &[u32], edges: &[Edge], clocks: &mut [u32])
    requires { HasRoom threads lanes.now edges.now (length clocks.old) }
    ensures exact { IsExact (shape lanes.now edges.now) threads clocks.new }
{
    open(threads, lanes, edges, clocks);
    settle(threads, lanes, edges, clocks);
}
