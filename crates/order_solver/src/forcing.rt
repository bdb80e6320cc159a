// Sides that the graph forces: those whose other side closes a cycle.
ghost use Rattle.std.specs.Prelude.{◌≡◌, ℕ, ◌+◌, ◌<◌, ◌≤◌, length};
ghost use Rattle.order_solver.specs.Rivals.{AreRivals, source_at};
ghost use Rattle.order_solver.specs.Cursors.{IsAt};
ghost use Rattle.order_solver.specs.Forcing.{Forces, ForcesAll};

use crate::cursor::{Cursor, with_greater};
use crate::rivals::Rivals;
use crate::rows::precedes;
use crate::taking::{is_greater_open, is_lesser_open, take_greater, take_lesser};
use light_base::Memory;
use order_graph::Graph;

/// As many rounds of forcing as there may be: each but the last decides a pair, and there are fewer pairs.
pub const ALL_ROUNDS: u64 = u64::MAX;

// Each round looks at all sources. With more of them than these, sides are forced at the start alone.
const MANY: usize = 8192;

/// How many rounds of forcing may follow each choice.
pub fn rounds_after<R: Rivals>(rivals: &R) -> u64 {
    let mut sources: usize = 0;
    for word in 0..rivals.words() {
        sources = sources.saturating_add(rivals.sources(word).len());
    }
    if sources <= MANY { ALL_ROUNDS } else { 0 }
}

// Whether two sources of a word are rivals.
fn are_rivals<R: Rivals>(rivals: &R, at: Cursor) -> bool
    requires word { at.word < (R.rivalry rivals.now).words }
    requires lesser { at.lesser < at.greater }
    requires greater { at.greater < length ((R.rivalry rivals.now).sources at.word) }
    ensures { result ≡ (R.rivalry rivals.now).rival at.word (source_at (R.rivalry rivals.now) at.word at.lesser)
        (source_at (R.rivalry rivals.now) at.word at.greater) }
{
    rivals.next_rival(at.word, at.lesser, at.greater) == at.greater
}

// Takes the lesser side of a pair whose greater one is shut, where the graph does not imply it. Whether it was taken; none
// where both are shut.
fn force_lesser<R: Rivals>(
    rivals: &R,
    graph: &mut Graph,
    at: Cursor,
) -> Result<Option<bool>, Memory>
    requires rivals { AreRivals (R.rivalry rivals.now) }
    requires counts { graph.old.counts ≡ (R.rivalry rivals.now).counts }
    requires at { IsAt (R.rivalry rivals.now) at }
    ensures { Forces (R.rivalry rivals.now) graph.old result graph.new }
{
    graph.acyclic_law();
    if is_greater_open(rivals, graph, at) {
        return Ok(Some(false));
    }
    if precedes(rivals, graph, at.word, at.lesser, at.greater) {
        return Ok(Some(false));
    }
    if take_lesser(rivals, graph, at)? {
        Ok(Some(true))
    } else {
        Ok(None)
    }
}

// Takes the greater side of a pair whose lesser one is shut, where the graph does not imply it. Whether it was taken; none
// where both are shut.
fn force_greater<R: Rivals>(
    rivals: &R,
    graph: &mut Graph,
    at: Cursor,
) -> Result<Option<bool>, Memory>
    requires rivals { AreRivals (R.rivalry rivals.now) }
    requires counts { graph.old.counts ≡ (R.rivalry rivals.now).counts }
    requires at { IsAt (R.rivalry rivals.now) at }
    ensures { Forces (R.rivalry rivals.now) graph.old result graph.new }
{
    graph.acyclic_law();
    if is_lesser_open(rivals, graph, at) {
        return Ok(Some(false));
    }
    if precedes(rivals, graph, at.word, at.greater, at.lesser) {
        return Ok(Some(false));
    }
    if take_greater(rivals, graph, at)? {
        Ok(Some(true))
    } else {
        Ok(None)
    }
}

// Of the sources of one thread from one place to another, those whose own side is shut against this source stand last: the
// place of the first of them.
fn first_shut<R: Rivals>(rivals: &R, graph: &Graph, at: Cursor, end: u32) -> u32
    requires rivals { AreRivals (R.rivalry rivals.now) }
    requires counts { graph.now.counts ≡ (R.rivalry rivals.now).counts }
    requires word { at.word < (R.rivalry rivals.now).words }
    requires source { at.lesser < at.greater }
    requires end { end ≤ length ((R.rivalry rivals.now).sources at.word) }
    ensures low { at.greater ≤ result }
    ensures high { at.greater < result → result ≤ end }
{
    let mut low = at.greater;
    let mut high = end;
    while low < high {
        let middle = low + (high - low) / 2;
        if is_greater_open(rivals, graph, with_greater(at, middle)) {
            low = middle + 1;
        } else {
            high = middle;
        }
    }
    low
}

// Of the sources of one thread from one place to another, those against which this source's own side is shut stand first:
// the place after the last of them.
fn end_shut<R: Rivals>(rivals: &R, graph: &Graph, at: Cursor, end: u32) -> u32
    requires rivals { AreRivals (R.rivalry rivals.now) }
    requires counts { graph.now.counts ≡ (R.rivalry rivals.now).counts }
    requires word { at.word < (R.rivalry rivals.now).words }
    requires source { at.lesser < at.greater }
    requires end { end ≤ length ((R.rivalry rivals.now).sources at.word) }
    ensures low { at.greater ≤ result }
    ensures high { at.greater < result → result ≤ end }
{
    let mut low = at.greater;
    let mut high = end;
    while low < high {
        let middle = low + (high - low) / 2;
        if is_lesser_open(rivals, graph, with_greater(at, middle)) {
            high = middle;
        } else {
            low = middle + 1;
        }
    }
    low
}

// Takes that a source comes before the first of those of one thread, from one place to another, that may not come before it.
// The later ones follow.
fn force_first<R: Rivals>(
    rivals: &R,
    graph: &mut Graph,
    at: Cursor,
    end: u32,
) -> Result<Option<bool>, Memory>
    requires rivals { AreRivals (R.rivalry rivals.now) }
    requires counts { graph.old.counts ≡ (R.rivalry rivals.now).counts }
    requires word { at.word < (R.rivalry rivals.now).words }
    requires source { at.lesser < at.greater }
    requires end { end ≤ length ((R.rivalry rivals.now).sources at.word) }
    ensures { Forces (R.rivalry rivals.now) graph.old result graph.new }
{
    let first = first_shut(rivals, graph, at, end);
    if first >= end {
        return Ok(Some(false));
    }
    let pair = with_greater(at, first);
    if are_rivals(rivals, pair) {
        force_lesser(rivals, graph, pair)
    } else {
        Ok(Some(false))
    }
}

// Takes that a source comes after the last of those of one thread, from one place to another, that may not come after it.
// The earlier ones follow.
fn force_last<R: Rivals>(
    rivals: &R,
    graph: &mut Graph,
    at: Cursor,
    end: u32,
) -> Result<Option<bool>, Memory>
    requires rivals { AreRivals (R.rivalry rivals.now) }
    requires counts { graph.old.counts ≡ (R.rivalry rivals.now).counts }
    requires word { at.word < (R.rivalry rivals.now).words }
    requires source { at.lesser < at.greater }
    requires end { end ≤ length ((R.rivalry rivals.now).sources at.word) }
    ensures { Forces (R.rivalry rivals.now) graph.old result graph.new }
{
    let last = end_shut(rivals, graph, at, end);
    if last <= at.greater {
        return Ok(Some(false));
    }
    let pair = with_greater(at, last - 1);
    if are_rivals(rivals, pair) {
        force_greater(rivals, graph, pair)
    } else {
        Ok(Some(false))
    }
}

// Takes what is forced of a source and those of one thread, from one place to another.
fn force_run<R: Rivals>(
    rivals: &R,
    graph: &mut Graph,
    at: Cursor,
    end: u32,
) -> Result<Option<bool>, Memory>
    requires rivals { AreRivals (R.rivalry rivals.now) }
    requires counts { graph.old.counts ≡ (R.rivalry rivals.now).counts }
    requires word { at.word < (R.rivalry rivals.now).words }
    requires source { at.lesser < at.greater }
    requires end { end ≤ length ((R.rivalry rivals.now).sources at.word) }
    ensures { Forces (R.rivalry rivals.now) graph.old result graph.new }
{
    let Some(first) = force_first(rivals, graph, at, end)? else {
        return Ok(None);
    };
    let Some(last) = force_last(rivals, graph, at, end)? else {
        return Ok(None);
    };
    Ok(Some(first | last))
}

// The same with the later sources of all threads, where one of them is a rival.
fn force_row<R: Rivals>(
    rivals: &R,
    graph: &mut Graph,
    word: u16,
    source: u32,
) -> Result<Option<bool>, Memory>
    requires rivals { AreRivals (R.rivalry rivals.now) }
    requires counts { graph.old.counts ≡ (R.rivalry rivals.now).counts }
    requires word { word < (R.rivalry rivals.now).words }
    requires source { source < length ((R.rivalry rivals.now).sources word) }
    ensures { Forces (R.rivalry rivals.now) graph.old result graph.new }
{
    if rivals.next_rival(word, source, source + 1) as usize >= rivals.sources(word).len() {
        return Ok(Some(false));
    }
    let mut some = false;
    let mut from = source + 1;
    for thread in 0..rivals.counts().len() {
        let (_, end) = rivals.group(word, thread as u8);
        let at = Cursor {
            word,
            lesser: source,
            greater: from,
        };
        let Some(forced) = force_run(rivals, graph, at, end)? else {
            return Ok(None);
        };
        some = some | forced;
        from = from.max(end);
    }
    Ok(Some(some))
}

// The same for all sources of a word.
fn force_word<R: Rivals>(rivals: &R, graph: &mut Graph, word: u16) -> Result<Option<bool>, Memory>
    requires rivals { AreRivals (R.rivalry rivals.now) }
    requires counts { graph.old.counts ≡ (R.rivalry rivals.now).counts }
    requires word { word < (R.rivalry rivals.now).words }
    ensures { Forces (R.rivalry rivals.now) graph.old result graph.new }
{
    let mut some = false;
    for source in 0..rivals.sources(word).len() {
        let Some(forced) = force_row(rivals, graph, word, source as u32)? else {
            return Ok(None);
        };
        some = some | forced;
    }
    Ok(Some(some))
}

// The same for all words.
fn force_words<R: Rivals>(rivals: &R, graph: &mut Graph) -> Result<Option<bool>, Memory>
    requires rivals { AreRivals (R.rivalry rivals.now) }
    requires counts { graph.old.counts ≡ (R.rivalry rivals.now).counts }
    ensures { Forces (R.rivalry rivals.now) graph.old result graph.new }
{
    let mut some = false;
    for word in 0..rivals.words() {
        let Some(forced) = force_word(rivals, graph, word)? else {
            return Ok(None);
        };
        some = some | forced;
    }
    Ok(Some(some))
}

/// Takes each side whose other one is shut, until there is none, in at most so many rounds. False where a pair has both sides
/// shut.
pub fn force<R: Rivals>(rivals: &R, graph: &mut Graph, rounds: u64) -> Result<bool, Memory>
    requires rivals { AreRivals (R.rivalry rivals.now) }
    requires counts { graph.old.counts ≡ (R.rivalry rivals.now).counts }
    ensures { ForcesAll (R.rivalry rivals.now) graph.old result graph.new }
{
    for _ in 0..rounds {
        let Some(forced) = force_words(rivals, graph)? else {
            return Ok(false);
        };
        if !forced {
            return Ok(true);
        }
    }
    Ok(true)
}
