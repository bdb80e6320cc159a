// The pairs of one source with later ones, and which of them the graph settles.
ghost use Rattle.std.specs.Prelude.{◌≡◌, ◌<◌, ◌≤◌, ◌↔◌, IsTrue, IfSome, length};
ghost use Rattle.order_graph.specs.Graphs.{edges_of};
ghost use Rattle.order_solver.specs.Rivals.{AreRivals};
ghost use Rattle.order_solver.specs.Cursors.{IsRooted, IsRun, Precedes, AreBefore, AreSettledBefore};
ghost use Rattle.order_solver.specs.Rooms.{AreUndecided};

use crate::cursor::Cursor;
use crate::rivals::Rivals;
use crate::sides::is_implied;
use order_graph::Graph;

// Whether the graph implies that one source of a word comes before another one, with its last reads.
pub fn precedes<R: Rivals>(rivals: &R, graph: &Graph, word: u16, first: u32, then: u32) -> bool
    requires rivals { AreRivals (R.rivalry rivals.now) }
    requires counts { graph.now.counts ≡ (R.rivalry rivals.now).counts }
    requires word { word < (R.rivalry rivals.now).words }
    requires first { first < length ((R.rivalry rivals.now).sources word) }
    requires then { then < length ((R.rivalry rivals.now).sources word) }
    ensures { IsTrue result ↔ Precedes (R.rivalry rivals.now) (edges_of graph.now) word first then }
{
    is_implied(
        graph,
        rivals.last_reads(word, first),
        rivals.sources(word)[then as usize],
    )
}

// Of the sources of one thread from one place to another, those that come before this source stand first. The place after
// the last of them.
fn first_after<R: Rivals>(
    rivals: &R,
    graph: &Graph,
    word: u16,
    source: u32,
    from: u32,
    end: u32,
) -> u32
    requires rivals { AreRivals (R.rivalry rivals.now) }
    requires counts { graph.now.counts ≡ (R.rivalry rivals.now).counts }
    requires word { word < (R.rivalry rivals.now).words }
    requires source { source < from }
    requires run { IsRun (R.rivalry rivals.now) (edges_of graph.now) word from end }
    ensures low { from ≤ result }
    ensures high { result ≤ end }
    ensures before { AreBefore (R.rivalry rivals.now) (edges_of graph.now) word source from result }
    ensures last { result < end → Precedes (R.rivalry rivals.now) (edges_of graph.now) word result source → ⊥ }
{
    let mut low = from;
    let mut high = end;
    while low < high {
        let middle = low + (high - low) / 2;
        if precedes(rivals, graph, word, middle, source) {
            low = middle + 1;
        } else {
            high = middle;
        }
    }
    low
}

// The first of the pairs of a source with its rivals of one thread, from one place to another, that the graph does not settle.
fn next_in_run<R: Rivals>(
    rivals: &R,
    graph: &Graph,
    word: u16,
    source: u32,
    from: u32,
    end: u32,
) -> Option<u32>
    requires rivals { AreRivals (R.rivalry rivals.now) }
    requires counts { graph.now.counts ≡ (R.rivalry rivals.now).counts }
    requires word { word < (R.rivalry rivals.now).words }
    requires source { source < from }
    requires run { IsRun (R.rivalry rivals.now) (edges_of graph.now) word from end }
    ensures settled { AreSettledBefore (R.rivalry rivals.now) (edges_of graph.now) word source from end result }
    ensures undecided { IfSome result (AreUndecided (R.rivalry rivals.now) (edges_of graph.now) word source) }
{
    let first = rivals.next_rival(word, source, from);
    if first >= end {
        return None;
    }
    let after = first_after(rivals, graph, word, source, first, end);
    let next = rivals.next_rival(word, source, after);
    if next >= end {
        return None;
    }
    if precedes(rivals, graph, word, source, next) {
        return None;
    }
    Some(next)
}

// The first of the pairs of a source from one place on that the graph does not settle.
pub fn next_in_row<R: Rivals>(rivals: &R, graph: &Graph, at: Cursor) -> Option<u32>
    requires rivals { AreRivals (R.rivalry rivals.now) }
    requires counts { graph.now.counts ≡ (R.rivalry rivals.now).counts }
    requires rooted { IsRooted (R.rivalry rivals.now) (edges_of graph.now) }
    requires word { at.word < (R.rivalry rivals.now).words }
    requires lesser { at.lesser < at.greater }
    ensures settled { AreSettledBefore (R.rivalry rivals.now) (edges_of graph.now) at.word at.lesser at.greater
        (length ((R.rivalry rivals.now).sources at.word)) result }
    ensures undecided { IfSome result (AreUndecided (R.rivalry rivals.now) (edges_of graph.now) at.word at.lesser) }
{
    let mut from = at.greater;
    for thread in 0..rivals.counts().len() {
        let (_, end) = rivals.group(at.word, thread as u8);
        if from < end {
            match next_in_run(rivals, graph, at.word, at.lesser, from, end) {
                Some(next) => return Some(next),
                None => from = end,
            }
        }
    }
    None
}
