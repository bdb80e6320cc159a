// The first difference between a log and what a replay found.
ghost use Rattle.std.specs.Prelude.{◌≡◌, ◌<◌, ◌≤◌, ◌↔◌, ◌^◌, IsTrue, MatchOption, length};
ghost use Rattle.replay_model.specs.RunLogs.{last_tags};
ghost use Rattle.replayer.specs.Differences.{part_of, part_items, TagsCompared, DifferFirst};

use dep_log::{Entry, ThreadLog};
use light_base::{Cell, Tag};
use machine::End;
use running_thread::cells::same_tag;
use std::marker::Model;

/// What a log keeps at one place.
#[derive(Clone, Copy, Debug, PartialEq, Eq)]
pub enum Kept {
    /// An entry of a thread.
    Entry(Entry),
    /// How a thread ended, after its last entry: its memory steps, its instructions, its end, and how many input numbers
    /// it took.
    Tail {
        steps: u32,
        instr: u32,
        end: End,
        taken: u32,
    },
    /// Who wrote a word last.
    LastTag(Tag),
}

/// The first place at which a log and what a replay found differ. The threads are compared in order, in each its entries
/// and then its tail, and after all threads the last tags of the words.
#[derive(Clone, Copy, Debug, PartialEq, Eq)]
pub struct Difference {
    /// The thread; for a last tag, the number of threads.
    pub thread: u8,
    /// The place among the thread's entries, where a tail stands after the last one; for a last tag, the word.
    pub entry: u32,
    pub logged: Kept,
    pub found: Kept,
}

// What one side has of a thread: its entries and its tail.
#[derive(Drop)]
pub(crate) struct Side<'a> {
    pub(crate) entries: &'a [Entry],
    pub(crate) steps: u32,
    pub(crate) instr: u32,
    pub(crate) end: End,
    pub(crate) taken: u32,
}

impl<'a> Model for Side<'a> {
    ghost use Rattle.replayer.specs.Differences.{Part};

    ghost Value = { Part };

    ghost view = { λ s. record { entries = s.entries.now; steps = s.steps; instr = s.instr; end = s.end; taken = s.taken } };
}

impl Side<'_> {
    ghost use Rattle.replayer.specs.Differences.{kept_at};

    // What stands at a place: an entry, or the tail after the last one.
    fn at(&self, place: usize) -> Kept
        ensures { result ≡ kept_at self.now place }
    {
        match self.entries.get(place) {
            Some(entry) => Kept::Entry(*entry),
            None => Kept::Tail {
                steps: self.steps,
                instr: self.instr,
                end: self.end,
                taken: self.taken,
            },
        }
    }

    // How many entries there are.
    fn len(&self) -> usize
        ensures { result ≡ length self.now.entries }
    {
        self.entries.len()
    }
}

// What the log has of a thread.
pub(crate) fn logged_side(log: &ThreadLog) -> Side<'_>
    requires { length log.now.taken ≤ 65536 }
    ensures { result ≡ part_of log.now }
{
    Side {
        entries: log.entries(),
        steps: log.steps(),
        instr: log.instr(),
        end: log.end(),
        taken: log.taken().len() as u32,
    }
}

// Whether two entries are the same.
fn is_same_entry(a: &Entry, b: &Entry) -> bool
    ensures { IsTrue result ↔ (a.now ≡ b.now) }
{
    a.word == b.word && same_tag(a.source, b.source) && a.first == b.first && a.last == b.last
}

// Whether two places keep the same.
fn is_same(a: &Kept, b: &Kept) -> bool
    ensures { IsTrue result ↔ (a.now ≡ b.now) }
{
    match (a, b) {
        (Kept::Entry(x), Kept::Entry(y)) => is_same_entry(x, y),
        (
            Kept::Tail {
                steps,
                instr,
                end,
                taken,
            },
            Kept::Tail {
                steps: other_steps,
                instr: other_instr,
                end: other_end,
                taken: other_taken,
            },
        ) => {
            steps == other_steps && instr == other_instr && end == other_end && taken == other_taken
        }
        (Kept::LastTag(x), Kept::LastTag(y)) => same_tag(*x, *y),
        _ => false,
    }
}

// The first place of a thread at which the two sides differ.
pub(crate) fn thread_difference(thread: u8, logged: &Side, found: &Side) -> Option<Difference>
    requires { length logged.now.entries < 2 ^ 32 }
    ensures { MatchOption result (logged.now ≡ found.now) (DifferFirst (part_items thread logged.now) (part_items thread found.now)) }
{
    let common = logged.len().min(found.len());
    for place in 0..common + 1 {
        let there = logged.at(place);
        let here = found.at(place);
        if !is_same(&there, &here) {
            return Some(Difference {
                thread,
                entry: place as u32,
                logged: there,
                found: here,
            });
        }
    }
    None
}

// The first word whose last tags differ.
pub(crate) fn tag_difference(threads: u8, logged: &[Tag], cells: &[Cell]) -> Option<Difference>
    requires words { length logged.now ≡ length cells.now }
    requires few { length logged.now < 2 ^ 32 }
    ensures { TagsCompared threads logged.now (last_tags cells.now) result }
{
    for (word, cell) in cells.iter().enumerate() {
        let there = logged[word];
        let here = cell.tag;
        if !same_tag(there, here) {
            return Some(Difference {
                thread: threads,
                entry: word as u32,
                logged: Kept::LastTag(there),
                found: Kept::LastTag(here),
            });
        }
    }
    None
}
