// Going over the pairs of all words, past those that the graph settles.
ghost use Rattle.std.specs.Prelude.{◌≡◌, ℕ, ◌+◌, ◌<◌, ◌≤◌, List, [], IfSome, MatchOption, length};
ghost use Rattle.order_graph.specs.Graphs.{edges_of};
ghost use Rattle.order_solver.specs.Rivals.{AreRivals};
ghost use Rattle.order_solver.specs.Cursors.{IsRooted, IsPlace, IsAt, pairs_at, Passes, next_row_of};
ghost use Rattle.order_solver.specs.Frames.{pair_at};
ghost use Rattle.order_solver.specs.Rooms.{IsDecided};

use crate::cursor::{Cursor, first_of};
use crate::rivals::Rivals;
use crate::rows::next_in_row;
use order_graph::Graph;

// The first pair of the next source of the word, or of the next word.
pub fn next_row<R: Rivals>(rivals: &R, at: Cursor) -> Cursor
    requires rivals { AreRivals (R.rivalry rivals.now) }
    requires word { at.word < (R.rivalry rivals.now).words }
    ensures { result ≡ next_row_of (R.rivalry rivals.now) at }
{
    if (at.lesser as usize) + 1 < rivals.sources(at.word).len() {
        Cursor {
            word: at.word,
            lesser: at.lesser + 1,
            greater: at.lesser + 2,
        }
    } else {
        first_of(at.word + 1)
    }
}

// The first pair from there on that the graph does not settle.
pub fn next_pair<R: Rivals>(rivals: &R, graph: &Graph, from: Cursor) -> Option<Cursor>
    requires rivals { AreRivals (R.rivalry rivals.now) }
    requires counts { graph.now.counts ≡ (R.rivalry rivals.now).counts }
    requires rooted { IsRooted (R.rivalry rivals.now) (edges_of graph.now) }
    requires place { IsPlace (R.rivalry rivals.now) from }
    ensures passes { MatchOption result (Passes (edges_of graph.now) (pairs_at (R.rivalry rivals.now) from) [])
        (λ c. IsAt (R.rivalry rivals.now) c × Passes (edges_of graph.now) (pairs_at (R.rivalry rivals.now) from) (pairs_at (R.rivalry rivals.now) c)) }
    ensures undecided { IfSome result (λ c. IsDecided (edges_of graph.now) (pair_at (R.rivalry rivals.now) c) → ⊥) }
{
    let mut at = from;
    while at.word < rivals.words() {
        if let Some(greater) = next_in_row(rivals, graph, at) {
            return Some(Cursor {
                word: at.word,
                lesser: at.lesser,
                greater,
            });
        }
        at = next_row(rivals, at);
    }
    None
}
