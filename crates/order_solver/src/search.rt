// The search: pair after pair, the lesser side first. It has no recursion and no list of pairs.
ghost use Rattle.std.specs.Prelude.{◌≡◌, ℕ, ◌+◌, ◌<◌, ◌≤◌, MatchOption, OnOk, OnErr, List, [], length, reverse, vec_capacity};
ghost use Rattle.order_graph.specs.Graphs.{edges_of, nodes_of};
ghost use Rattle.order_solver.specs.Rivals.{AreRivals, source_at, pair_in};
ghost use Rattle.order_solver.specs.Cursors.{IsAt};
ghost use Rattle.order_solver.specs.Sides.{Takes};
ghost use Rattle.order_solver.specs.Begun.{IsBegun};
ghost use Rattle.order_solver.specs.Frames.{pair_at, Stacked, TookPair, Chose, WentBack, Explored, LeavesOne};
ghost use Rattle.order_solver.specs.Rooms.{IsDecided, StackKeepsMemory, StackLacksMemory, LacksSideMemory};

use crate::cursor::{Cursor, first_of, next_to};
use crate::forcing::{ALL_ROUNDS, force, rounds_after};
use crate::pairs::next_pair;
use crate::rivals::Rivals;
use crate::taking::{take_greater, take_lesser};
use light_base::Memory;
use order_graph::{Graph, Mark};

// A pair whose lesser side was taken, and the edges that stood before.
#[derive(Clone, Copy)]
pub struct Frame {
    pub mark: Mark,
    pub at: Cursor,
}

/// How a search ended.
#[derive(Clone, Copy, Debug, PartialEq, Eq)]
pub enum Ending {
    /// All pairs are passed.
    Found,
    /// There is no choice of a side of each pair.
    None,
    /// The budget is spent.
    Spent,
}

// Takes the lesser side of a pair, and leaves the greater one for later; where the lesser one is shut, it takes that. False
// where both are shut.
fn take_pair<R: Rivals>(
    rivals: &R,
    graph: &mut Graph,
    frames: &mut Vec<Frame>,
    at: Cursor,
) -> Result<bool, Memory>
    requires rivals { AreRivals (R.rivalry rivals.now) }
    requires counts { graph.old.counts ≡ (R.rivalry rivals.now).counts }
    requires stacked { Stacked (R.rivalry rivals.now) graph.old.added (reverse frames.old.items) }
    requires at { IsAt (R.rivalry rivals.now) at }
    requires undecided { IsDecided (edges_of graph.old) (pair_at (R.rivalry rivals.now) at) → ⊥ }
    ensures took { TookPair (R.rivalry rivals.now) at graph.old (reverse frames.old.items) graph.new (reverse frames.new.items) result }
    ensures room { OnOk result (StackKeepsMemory (R.rivalry rivals.now) graph.old frames.old graph.new frames.new) }
    ensures memory { OnErr result (StackLacksMemory (R.rivalry rivals.now) graph.old frames.old) }
{
    let mark = graph.mark();
    if take_lesser(rivals, graph, at)? {
        frames.push(Frame { mark, at })?;
        return Ok(true);
    }
    take_greater(rivals, graph, at)
}

// Goes back to the nearest pair whose greater side is open, and takes it. The place after that pair.
fn go_back<R: Rivals>(
    rivals: &R,
    graph: &mut Graph,
    frames: &mut Vec<Frame>,
) -> Result<Option<Cursor>, Memory>
    requires rivals { AreRivals (R.rivalry rivals.now) }
    requires counts { graph.old.counts ≡ (R.rivalry rivals.now).counts }
    requires stacked { Stacked (R.rivalry rivals.now) graph.old.added (reverse frames.old.items) }
    ensures went { WentBack (R.rivalry rivals.now) graph.old (reverse frames.old.items) graph.new (reverse frames.new.items) result }
    ensures room { OnOk result (StackKeepsMemory (R.rivalry rivals.now) graph.old frames.old graph.new frames.new) }
    ensures memory { OnErr result (StackLacksMemory (R.rivalry rivals.now) graph.old frames.old) }
{
    while let Some(frame) = frames.pop() {
        graph.undo(frame.mark);
        if take_greater(rivals, graph, frame.at)? {
            return Ok(Some(next_to(frame.at)));
        }
    }
    Ok(None)
}

// Takes a side of a pair, and then what is forced. False where that meets a dead end.
fn choose<R: Rivals>(
    rivals: &R,
    graph: &mut Graph,
    frames: &mut Vec<Frame>,
    at: Cursor,
    rounds: u64,
) -> Result<bool, Memory>
    requires rivals { AreRivals (R.rivalry rivals.now) }
    requires counts { graph.old.counts ≡ (R.rivalry rivals.now).counts }
    requires stacked { Stacked (R.rivalry rivals.now) graph.old.added (reverse frames.old.items) }
    requires at { IsAt (R.rivalry rivals.now) at }
    requires undecided { IsDecided (edges_of graph.old) (pair_at (R.rivalry rivals.now) at) → ⊥ }
    ensures chose { Chose (R.rivalry rivals.now) at graph.old (reverse frames.old.items) graph.new (reverse frames.new.items) result }
    ensures room { OnOk result (StackKeepsMemory (R.rivalry rivals.now) graph.old frames.old graph.new frames.new) }
    ensures memory { OnErr result (StackLacksMemory (R.rivalry rivals.now) graph.old frames.old) }
{
    if take_pair(rivals, graph, frames, at)? {
        return force(rivals, graph, rounds);
    }
    Ok(false)
}

// The number of dead ends with one more; none where the budget is spent.
fn one_more(dead: u32, budget: u32) -> Option<u32>
    requires { dead ≤ budget }
    ensures { MatchOption result (dead ≡ budget) (λ more. (more ≡ dead + 1) × (more ≤ budget)) }
{
    if dead < budget { Some(dead + 1) } else { None }
}

// Searches all pairs, with at most so many dead ends. What is forced is taken at the start and after each choice. A dead end with
// nothing to go back to needs no budget: there is no choice. So where the budget is spent, there is a pair to go back to.
pub fn explore<R: Rivals>(
    rivals: &R,
    graph: &mut Graph,
    frames: &mut Vec<Frame>,
    budget: u32,
) -> Result<Ending, Memory>
    requires rivals { AreRivals (R.rivalry rivals.now) }
    requires begun { IsBegun (R.rivalry rivals.now) graph.old }
    requires empty { frames.old.items ≡ [] }
    ensures explored { Explored (R.rivalry rivals.now) budget result graph.new }
    ensures left { LeavesOne result frames.new.items }
    ensures memory { OnErr result (LacksSideMemory (R.rivalry rivals.now) graph.old frames.old) }
{
    let mut at = first_of(0);
    let mut dead: u32 = 0;
    let rounds = rounds_after(rivals);
    let mut stands = force(rivals, graph, ALL_ROUNDS)?;
    loop {
        if stands {
            let Some(pair) = next_pair(rivals, graph, at) else {
                return Ok(Ending::Found);
            };
            stands = choose(rivals, graph, frames, pair, rounds)?;
            at = next_to(pair);
        } else {
            if frames.is_empty() {
                return Ok(Ending::None);
            }
            let Some(more) = one_more(dead, budget) else {
                return Ok(Ending::Spent);
            };
            dead = more;
            let Some(next) = go_back(rivals, graph, frames)? else {
                return Ok(Ending::None);
            };
            at = next;
            stands = force(rivals, graph, rounds)?;
        }
    }
}
