// Sets of numbers, quick where the numbers of each row come by rising ones.
ghost use Rattle.std.specs.Prelude.{◌≡◌, ℕ, [], ◌∷◌, ◌++◌, ◌^◌, ◌<◌, true, false, nat_eq, IfOk, OnOk, OnErr};
ghost use Rattle.std.specs.Ordering.{nat_cmp};
ghost use Rattle.std.specs.List.{list_any};
ghost use Rattle.std.specs.BTreeSet.{contains, IsUnchanged};
ghost use Rattle.log_file.specs.NumberSets.{AreRaised, Puts};

use std::alloc::{AllocError, Global};
use std::collections::BTreeSet;
use std::marker::Model;

/// How many numbers stand in a row.
const ROW: u64 = 1 << 28;

/// A set that is seen as the list of the numbers that were put in. No number costs more than the logarithm of their count, but
/// once: the first that is not the greatest of its row so far.
#[derive(Drop)]
pub(crate) struct NumberSet {
    alloc: Global,
    numbers: Vec<u64>,
    // For each row one more than the greatest number that was put in; 0 where none was.
    ends: Vec<u64>,
    // All of them, once they are gathered: where one was put in that was not the greatest of its row.
    set: BTreeSet<u64>,
    is_gathered: bool,
}

impl Model for NumberSet {
    ghost use Rattle.std.specs.Prelude.{ℕ, List};
    ghost use Rattle.log_file.specs.NumberSets.{HasNumbers};

    ghost Value = { List ℕ };

    ghost view = { λ s. s.numbers.items };

    ghost invariant = { λ s. HasNumbers s.numbers.items s.ends.items s.set s.is_gathered };
}

// The set of these numbers.
fn gathered(alloc: Global, numbers: &[u64]) -> Result<BTreeSet<u64>, AllocError>
    ensures { IfOk result (λ set. (n : ℕ) → contains nat_cmp set n ≡ list_any (nat_eq n) numbers.now) }
{
    numbers.iter().copied().collect(alloc)
}

// Puts a number into the set, where that is to have them all.
#[tactic(auto, using(crate::proofs::NumberSets::equal_or_there))]
fn put(set: &mut BTreeSet<u64>, is_gathered: bool, number: u64) -> Result<(), AllocError>
    ensures puts { OnOk result (Puts is_gathered number set.old set.new) }
    ensures err { OnErr result (IsUnchanged set.old set.new) }
{
    if is_gathered {
        set.insert(number)?;
    }
    Ok(())
}

// Raises the end of the number's row above it.
fn raise(ends: &mut Vec<u64>, number: u64)
    requires { number < 2 ^ 48 }
    ensures { AreRaised number ends.old.items ends.new.items }
{
    let row = (number / ROW) as usize;
    if row < ends.len() {
        ends[row] = ends[row].max(number + 1);
    }
}

impl NumberSet {
    /// No number yet, with so many rows, and room for so many numbers.
    pub(crate) fn new(alloc: Global, rows: usize, room: usize) -> Result<NumberSet, AllocError>
        ensures { IfOk result (λ set. set ≡ []) }
    {
        Ok(NumberSet {
            alloc,
            numbers: Vec::with_capacity(alloc, room)?,
            ends: vec![in alloc; 0; rows]?,
            set: BTreeSet::new(alloc),
            is_gathered: false,
        })
    }

    // Whether the number is greater than those of its row: then it is not among them.
    #[tactic(auto, using(crate::proofs::NumberSets::greatest_is_new))]
    fn is_greatest(&self, number: u64) -> bool
        ensures { result ≡ true → list_any (nat_eq number) self.now ≡ false }
    {
        match self.ends.get((number / ROW) as usize) {
            Some(end) => *end <= number,
            None => false,
        }
    }

    /// Whether the number was put in.
    pub(crate) fn contains(&self, number: u64) -> bool
        ensures { result ≡ list_any (nat_eq number) self.now }
    {
        if self.is_greatest(number) {
            return false;
        }
        if self.is_gathered {
            return self.set.contains(&number);
        }
        self.numbers.contains(&number)
    }

    // Gathers the numbers, after which the set has them all.
    fn gather(&mut self) -> Result<(), AllocError>
        ensures { self.new ≡ self.old }
    {
        self.set = gathered(self.alloc, &self.numbers)?;
        self.is_gathered = true;
        Ok(())
    }

    /// Puts a number in.
    #[tactic(auto, using(crate::proofs::NumberSets::one_number_more))]
    pub(crate) fn push(&mut self, number: u64) -> Result<(), AllocError>
        requires { number < 2 ^ 48 }
        ensures { OnOk result (self.new ≡ self.old ++ number ∷ []) }
    {
        if !self.is_gathered && !self.is_greatest(number) {
            self.gather()?;
        }
        self.numbers.reserve(1)?;
        put(&mut self.set, self.is_gathered, number)?;
        raise(&mut self.ends, number);
        self.numbers.push_reserved(number);
        Ok(())
    }
}
