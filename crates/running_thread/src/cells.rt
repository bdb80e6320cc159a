//! The words of a memory: what a memory step finds there, and what it writes.
ghost use Rattle.std.specs.Prelude.{◌≡◌, ◌<◌, ◌≤◌, IfOk, length, slice_index_or, false, true, cond};
ghost use Rattle.light_base.specs.Tags.{HasTag};
ghost use Rattle.replay_model.specs.Steps.{same_tag, word_of, has_ended, wrote, found_in, put, initial_cells};

use light_base::{Cell, Event, Memory, Tag};
use replay_model::Want;
use std::alloc::Global;

/// Whether two words have the same writer.
pub fn same_tag(a: Tag, b: Tag) -> bool
    ensures { result ≡ same_tag a b }
{
    a.writer() == b.writer()
}

/// The word that is wanted.
pub fn word_of(want: &Want) -> u16
    ensures { result ≡ word_of want.now }
{
    match want {
        Want::Load(word) => *word,
        Want::Store(word, _) => *word,
        Want::Swap(word, _) => *word,
        Want::Cond(word, _, _) => *word,
        Want::Ended(_) => 0,
    }
}

/// The cell that a reading step finds: the one in its word.
pub fn found_in(cells: &[Cell], want: &Want) -> Option<Cell>
    requires { has_ended want.now ≡ false → word_of want.now < length cells.now }
    ensures { result ≡ found_in cells.now want.now }
{
    match want {
        Want::Load(word) | Want::Swap(word, _) | Want::Cond(word, _, _) => {
            Some(cells[usize::from(*word)])
        }
        Want::Store(_, _) | Want::Ended(_) => None,
    }
}

/// The value that a step writes, which found this; None where it writes nothing.
pub fn written(want: &Want, found: &Option<Cell>) -> Option<u32>
    ensures { result ≡ wrote want.now found.now }
{
    match want {
        Want::Store(_, value) | Want::Swap(_, value) => Some(*value),
        Want::Cond(_, seen, value) => match found {
            Some(cell) if same_tag(cell.tag, *seen) => Some(*value),
            _ => None,
        },
        Want::Load(_) | Want::Ended(_) => None,
    }
}

/// Writes a value to a word with the event's tag, if there is a value.
pub fn put(cells: &mut [Cell], word: u16, event: Event, value: Option<u32>)
    requires word { word < length cells.old }
    requires event { HasTag event }
    ensures { cells.new ≡ put cells.old word event value }
{
    if let Some(value) = value {
        cells[usize::from(word)] = Cell {
            value,
            tag: event.tag(),
        };
    }
}

/// The words before any step: each has its initial value, which nobody wrote.
pub fn opening_cells(alloc: Global, words: &[u32]) -> Result<Vec<Cell>, Memory>
    ensures { IfOk result (λ cells. cells.items ≡ initial_cells words.now) }
{
    let cells = words
        .iter()
        .map(|value| Cell {
            value: *value,
            tag: Tag::INITIAL,
        })
        .collect(alloc)?;
    Ok(cells)
}

/// Writes a value to a word with the event's tag, if there is a value and the write is made.
#[inline(always)]
pub fn write(cells: &mut Vec<Cell>, made: bool, word: u16, event: Event, value: Option<u32>)
    requires word { word < length cells.old.items }
    requires event { HasTag event }
    ensures { cells.new.items ≡ cond made (put cells.old.items word event value) cells.old.items }
{
    if made {
        if let Some(value) = value {
            cells[usize::from(word)] = Cell {
                value,
                tag: event.tag(),
            };
        }
    }
}
