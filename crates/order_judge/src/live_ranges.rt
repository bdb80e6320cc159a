// Live ranges of words, and the first two of them that overlap.
ghost use Rattle.std.specs.Prelude.{◌≡◌, ℕ, ◌^◌, ◌<◌, ◌↔◌, IsTrue, IfOk, MatchOption, length};
ghost use Rattle.order_judge.specs.LiveRanges.{BeginsInside, Overlap, IsFirstOverlap, AreApart, range_at};

use crate::passes::{first_around, first_inside};
use crate::sorted::sort;
use light_base::Memory;
use std::alloc::Global;

/// How long a word keeps what one writer wrote: from the place `from`, at which it is written, to the place `to`, at which
/// it is read for the last time.
#[derive(Clone, Copy, Debug, PartialEq, Eq, PartialOrd, Ord)]
pub struct LiveRange {
    pub word: u32,
    pub from: u32,
    pub to: u32,
}

// Whether the one begins inside the other.
fn begins_inside(one: &LiveRange, other: &LiveRange) -> bool
    ensures { IsTrue result ↔ BeginsInside one.now other.now }
{
    one.word == other.word && other.from < one.from && one.from < other.to
}

// Whether one of the two begins inside the other.
fn overlap(one: &LiveRange, other: &LiveRange) -> bool
    ensures { IsTrue result ↔ Overlap one.now other.now }
{
    begins_inside(one, other) || begins_inside(other, one)
}

// The number of the first live range that this one overlaps.
fn first_with(range: &LiveRange, ranges: &[LiveRange]) -> Option<u32>
    requires { length ranges.now < 2 ^ 32 }
    ensures { MatchOption result ((j : ℕ) → j < length ranges.now → Overlap range.now (range_at ranges.now j) → ⊥)
        (λ j. (j < length ranges.now) × Overlap range.now (range_at ranges.now j) × ((l : ℕ) → l < j → Overlap range.now (range_at ranges.now l) → ⊥)) }
{
    for (j, other) in ranges.iter().enumerate() {
        if overlap(range, other) {
            return Some(j as u32);
        }
    }
    None
}

/// The numbers of the first two live ranges of one word one of which begins inside the other: the least number of such a
/// one, and the least of those that it overlaps. None where no two overlap.
pub fn first_overlap(alloc: Global, ranges: &[LiveRange]) -> Result<Option<(u32, u32)>, Memory>
    requires { length ranges.now < 2 ^ 32 }
    ensures { IfOk result (λ found. MatchOption found (AreApart ranges.now) (λ pair. IsFirstOverlap ranges.now pair.0 pair.1)) }
{
    let sorted = sort(alloc, ranges)?;
    let first = first_inside(&sorted).min(first_around(&sorted));
    if first as usize >= ranges.len() {
        return Ok(None);
    }
    let Some(second) = first_with(&ranges[first as usize], ranges) else {
        return Ok(None);
    };
    Ok(Some((first, second)))
}
