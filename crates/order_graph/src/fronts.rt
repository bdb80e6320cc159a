// Places nodes one after the other. Of each thread those below its front are placed.
ghost use Rattle.std.specs.Prelude.{◌≡◌, ℕ, ◌+◌, ◌*◌, ◌^◌, ◌<◌, ◌≤◌, ◌↔◌, IsTrue, List, [], length, slice_index, MatchOption, vec_capacity};
ghost use Rattle.plain_search.specs.declared.Edge.{Edge};
ghost use Rattle.order_graph.specs.Orders.{IsOrder};
ghost use Rattle.order_graph.specs.Fronts.{HasLanes, HasFront, Blocks, IsOpenFront, IsFirstOpen, AreStarts, IsClocked};

// Whether the front of a thread is one of its nodes.
fn has_front(lanes: &[u32], fronts: &[u32], thread: usize) -> bool
    requires { thread < length fronts.now }
    ensures { IsTrue result ↔ HasFront lanes.now fronts.now thread }
{
    let front = fronts[thread] as usize;
    front < lanes.len() && lanes[front] as usize == thread
}

// Whether the front of a thread leads to that of another one.
fn blocks(
    threads: usize,
    lanes: &[u32],
    clocks: &[u32],
    fronts: &[u32],
    other: usize,
    thread: usize,
) -> bool
    requires room { HasLanes threads lanes.now (length clocks.now) }
    requires fronts { length fronts.now ≡ threads }
    requires other { other < threads }
    requires thread { thread < threads }
    ensures { IsTrue result ↔ Blocks threads lanes.now clocks.now fronts.now other thread }
{
    if other == thread || !has_front(lanes, fronts, other) {
        return false;
    }
    clocks[fronts[other] as usize * threads + thread] <= fronts[thread]
}

// Whether a thread has a front, and no other one leads to it.
fn is_open(threads: usize, lanes: &[u32], clocks: &[u32], fronts: &[u32], thread: usize) -> bool
    requires room { HasLanes threads lanes.now (length clocks.now) }
    requires fronts { length fronts.now ≡ threads }
    requires thread { thread < threads }
    ensures { IsTrue result ↔ IsOpenFront threads lanes.now clocks.now fronts.now thread }
{
    if !has_front(lanes, fronts, thread) {
        return false;
    }
    for other in 0..threads {
        if blocks(threads, lanes, clocks, fronts, other, thread) {
            return false;
        }
    }
    true
}

// The first thread whose front is open.
fn first_open(threads: usize, lanes: &[u32], clocks: &[u32], fronts: &[u32]) -> Option<usize>
    requires room { HasLanes threads lanes.now (length clocks.now) }
    requires fronts { length fronts.now ≡ threads }
    ensures { IsFirstOpen threads lanes.now clocks.now fronts.now result }
{
    for thread in 0..threads {
        if is_open(threads, lanes, clocks, fronts, thread) {
            return Some(thread);
        }
    }
    None
}

// Sets each thread's front to its first node.
fn start(lanes: &[u32], fronts: &mut [u32])
    requires few { length lanes.now < 2 ^ 32 }
    requires lane { (x : ℕ) → x < length lanes.now → slice_index lanes.now x < length fronts.old }
    ensures { AreStarts lanes.now 0 fronts.new }
{
    let mut node = lanes.len();
    while node > 0 {
        node -= 1;
        fronts[lanes[node] as usize] = node as u32;
    }
}

// Places all nodes, each after those that lead to it, the least that may be first.
pub fn place_all(
    threads: usize,
    lanes: &[u32],
    clocks: &[u32],
    fronts: &mut [u32],
    out: &mut Vec<u32>,
)
    requires room { HasLanes threads lanes.now (length clocks.now) }
    requires fronts { length fronts.old ≡ threads }
    requires empty { out.old.items ≡ [] }
    requires space { length lanes.now ≤ vec_capacity out.old }
    ensures { (edges : List Edge) → IsClocked threads lanes.now clocks.now edges → IsOrder edges (length lanes.now) out.new.items }
{
    start(lanes, fronts);
    while let Some(thread) = first_open(threads, lanes, clocks, fronts) {
        out.push_reserved(fronts[thread]);
        fronts[thread] += 1;
    }
}
