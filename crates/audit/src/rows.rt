// Rows of numbers, each number once in its row, and rising.
ghost use Rattle.std.specs.Prelude.{◌≡◌, ◌<◌, ◌++◌, ◌∷◌, [], All, IfOk, OnOk, length, replicate, slice_index_or, slice_set};
ghost use Rattle.audit.specs.Rows.{numbers_of, IsOrdered, AreFilled, AreOrdered, AreRows};

use light_base::Memory;
use std::alloc::Global;
use std::marker::Model;

/// A number, and the row in which it stands.
#[derive(Clone, Copy)]
pub struct Mark {
    pub row: u32,
    pub number: u32,
}

/// A row of numbers, seen as their list.
#[derive(Drop)]
pub struct Row {
    numbers: Vec<u32>,
}

impl Model for Row {
    ghost use Rattle.std.specs.Prelude.{List, ℕ};

    ghost Value = { List ℕ };

    ghost view = { λ r. r.numbers.items };
}

impl Row {
    /// The row of these numbers.
    pub(crate) fn new(numbers: Vec<u32>) -> Row
        ensures { result ≡ numbers.items }
    {
        Row { numbers }
    }

    /// Its numbers.
    pub(crate) fn numbers(&self) -> &[u32]
        ensures { result.now ≡ self.now }
    {
        &self.numbers
    }

    // One more number.
    fn push(&mut self, number: u32) -> Result<(), Memory>
        ensures { OnOk result (self.new ≡ self.old ++ number ∷ []) }
    {
        self.numbers.push(number)?;
        Ok(())
    }

    // Has each number once, and rising.
    fn order(&mut self)
        ensures { IsOrdered self.old self.new }
    {
        self.numbers.sort_unstable();
        self.numbers.dedup();
    }
}

// So many rows with no numbers.
fn empty_rows(alloc: Global, count: usize) -> Result<Vec<Row>, Memory>
    ensures { IfOk result (λ rows. rows.items ≡ replicate count []) }
{
    let mut rows = Vec::with_capacity(alloc, count)?;
    for _row in 0..count {
        rows.push(Row::new(Vec::new(alloc)))?;
    }
    Ok(rows)
}

// Puts the numbers into their rows.
fn fill(rows: &mut Vec<Row>, marks: &[Mark]) -> Result<(), Memory>
    requires { All (λ mark. mark.row < length rows.old.items) marks.now }
    ensures { OnOk result (AreFilled rows.old.items marks.now rows.new.items) }
{
    for mark in marks {
        rows[mark.row as usize].push(mark.number)?;
    }
    Ok(())
}

// Orders each row.
fn order_all(rows: &mut Vec<Row>)
    ensures { AreOrdered rows.old.items rows.new.items }
{
    for row in 0..rows.len() {
        rows[row].order();
    }
}

/// So many rows with these numbers, in each row each number once and rising.
pub(crate) fn rows_of(alloc: Global, count: usize, marks: &[Mark]) -> Result<Vec<Row>, Memory>
    requires { All (λ mark. mark.row < count) marks.now }
    ensures { IfOk result (λ rows. AreRows count marks.now rows.items) }
{
    let mut rows = empty_rows(alloc, count)?;
    fill(&mut rows, marks)?;
    order_all(&mut rows);
    Ok(rows)
}
