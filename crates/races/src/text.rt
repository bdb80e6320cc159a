// The pairs that a log leaves open, as text. After `Memory` the text has some front of a line more.
ghost use Rattle.std.specs.Prelude.{◌≡◌, ◌++◌, IfOk, OnOk};
ghost use Rattle.std.specs.List.{flat_map};
ghost use Rattle.races.specs.Texts.{field, event_text, pair_line, count_line, races_text};

use crate::open::{Open, open_pairs};
use crate::pair::Pair;
use constraints::Problem;
use light_base::{Event, Memory, put_decimal};
use std::alloc::Global;

// Appends a name and its number.
fn put_field(text: &mut Vec<u8>, name: &[u8], n: u64) -> Result<(), Memory>
    ensures { OnOk result (text.new.items ≡ text.old.items ++ field name.now n) }
{
    text.extend_from_slice(name)?;
    put_decimal(text, n)
}

// Appends an event after a blank.
fn put_event(text: &mut Vec<u8>, event: Event) -> Result<(), Memory>
    ensures { OnOk result (text.new.items ≡ text.old.items ++ event_text event) }
{
    put_field(text, b" ", u64::from(event.thread))?;
    put_field(text, b":", u64::from(event.step))
}

// Appends the line of a pair.
fn put_pair(text: &mut Vec<u8>, pair: &Pair) -> Result<(), Memory>
    ensures { OnOk result (text.new.items ≡ text.old.items ++ pair_line pair.now) }
{
    put_field(text, b"pair ", u64::from(pair.word))?;
    put_event(text, pair.lesser)?;
    put_event(text, pair.greater)?;
    text.push(b'\n')?;
    Ok(())
}

// Appends a line for each pair.
fn put_pairs(text: &mut Vec<u8>, pairs: &[Pair]) -> Result<(), Memory>
    ensures { OnOk result (text.new.items ≡ text.old.items ++ flat_map pair_line pairs.now) }
{
    for pair in pairs {
        put_pair(text, pair)?;
    }
    Ok(())
}

// Appends how many pairs there are of each kind.
fn put_counts(text: &mut Vec<u8>, found: &Open) -> Result<(), Memory>
    ensures { OnOk result (text.new.items ≡ text.old.items ++ count_line found.now.pairs found.now.left_open found.now.forced found.now.stuck) }
{
    put_field(text, b"pairs ", found.pairs)?;
    put_field(text, b" open ", found.left_open)?;
    put_field(text, b" forced ", found.forced)?;
    put_field(text, b" stuck ", found.stuck)?;
    text.push(b'\n')?;
    Ok(())
}

/// What `open_pairs` answers as text: a line `pairs P open N forced F stuck S`, and then a line `pair W S T` for each of the first
/// `most` open pairs, with its word and its writes as `thread:step`. The one error is want of memory.
#[tactic(auto, unfolding(crate::specs::Texts::races_text))]
pub fn races_text(alloc: Global, problem: &Problem, most: u32) -> Result<Vec<u8>, Memory>
    ensures { IfOk result (λ text. text.items ≡ races_text most problem.now) }
{
    let found = open_pairs(alloc, problem, most)?;
    let mut text = Vec::new(alloc);
    put_counts(&mut text, &found)?;
    put_pairs(&mut text, &found.first)?;
    Ok(text)
}
