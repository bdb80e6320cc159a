// Rows of numbers, laid end to end.
ghost use Rattle.std.specs.Prelude.{◌≡◌, ◌+◌, ◌<◌, length, [], take, slice_index, slice_index_or};
ghost use Rattle.std.specs.List.{sum_by};
ghost use Rattle.constraints.specs.Rows.{AreStarts, cut, rows_of};

use std::marker::Model;

/// Rows of numbers, seen as the list of its rows. They are laid end to end.
#[derive(Drop)]
pub struct Rows {
    items: Vec<u32>,
    // Where each row begins, and at the end where the last one ends.
    starts: Vec<usize>,
}

impl Model for Rows {
    ghost use Rattle.std.specs.Prelude.{List, ℕ};
    ghost use Rattle.constraints.specs.Rows.{AreStarts, rows_of};

    ghost Value = { List (List ℕ) };

    ghost view = { λ r. rows_of r.items.items r.starts.items };

    ghost invariant = { λ r. AreStarts r.items.items r.starts.items };
}

// The items from the start of row i up to the next start.
fn part<'a>(items: &'a [u32], starts: &[usize], i: usize) -> &'a [u32]
    requires starts { AreStarts items.now starts.now }
    requires row { i + 1 < length starts.now }
    ensures { result.now ≡ cut items.now (slice_index starts.now i) (slice_index starts.now (i + 1)) }
{
    &items[starts[i]..starts[i + 1]]
}

impl Rows {
    /// The rows of the items that begin at these starts. The last start ends the last row.
    pub fn new(items: Vec<u32>, starts: Vec<usize>) -> Rows
        requires { AreStarts items.items starts.items }
        ensures { result ≡ rows_of items.items starts.items }
    {
        Rows { items, starts }
    }

    /// How many rows there are.
    #[tactic(auto, using(crate::proofs::RowCuts::row_rules))]
    pub fn len(&self) -> usize
        ensures { result ≡ length self.now }
    {
        self.starts.len() - 1
    }

    /// Row i.
    #[tactic(auto, using(crate::proofs::RowCuts::row_rules))]
    pub fn row(&self, i: usize) -> &[u32]
        requires { i < length self.now }
        ensures { result.now ≡ slice_index_or self.now i [] }
    {
        part(&self.items, &self.starts, i)
    }

    /// How many numbers the rows before row i have.
    #[tactic(auto, using(crate::proofs::RowCuts::row_rules))]
    pub fn start(&self, i: usize) -> usize
        requires { i < length self.now }
        ensures { result ≡ sum_by length (take i self.now) }
    {
        self.starts[i]
    }
}
