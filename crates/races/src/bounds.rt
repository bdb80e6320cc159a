// Bounds of numbers that stand in rows, by which many rows are passed at once.
ghost use Rattle.std.specs.Prelude.{◌≡◌, ℕ, ◌+◌, ◌*◌, ◌<◌, ◌≤◌, ◌^◌, IfOk, length, slice_index};
ghost use Rattle.races.specs.Bounds.{AreBlocks, NeverLess, RiseBy, AreTops, AreFloors};

use light_base::Memory;
use std::alloc::Global;

// Makes each number from one place to another no less than the one so many places before.
fn raise(tops: &mut Vec<u32>, step: usize, from: usize, to: usize)
    requires step { 0 < step }
    requires from { step ≤ from }
    requires to { to ≤ length tops.old.items }
    ensures length { length tops.new.items ≡ length tops.old.items }
    ensures least { NeverLess tops.new.items tops.old.items }
    ensures rise { RiseBy step tops.new.items from to }
    ensures before { (k : ℕ) → k < from → slice_index tops.new.items k ≡ slice_index tops.old.items k }
{
    for k in from..to {
        tops[k] = tops[k].max(tops[k - step]);
    }
}

// Makes each number from one place to another no more than the one so many places behind, where that stands before the end.
fn lower(floors: &mut Vec<u32>, step: usize, from: usize, to: usize)
    requires step { 0 < step }
    requires from { from ≤ to }
    requires to { to + step ≤ length floors.old.items }
    ensures length { length floors.new.items ≡ length floors.old.items }
    ensures most { NeverLess floors.old.items floors.new.items }
    ensures rise { RiseBy step floors.new.items (from + step) (to + step) }
    ensures before { (k : ℕ) → k < from → slice_index floors.new.items k ≡ slice_index floors.old.items k }
{
    for k in (from..to).rev() {
        floors[k] = floors[k].min(floors[k + step]);
    }
}

/// For each number the greatest of those that stand in its column in the rows of its block up to its own.
pub fn tops_of(
    alloc: Global,
    starts: &[u32],
    numbers: &[u32],
    width: usize,
) -> Result<Vec<u32>, Memory>
    requires width { 0 < width }
    requires narrow { width ≤ 15 }
    requires rows { (rows : ℕ) × (rows < 2 ^ 20) × AreBlocks width rows starts.now × (length numbers.now ≡ rows * width) }
    ensures { IfOk result (λ tops. AreTops width width starts.now numbers.now tops.items) }
{
    let mut tops = Vec::from_slice(alloc, numbers)?;
    for block in 0..width {
        let from = (starts[block] as usize + 1) * width;
        raise(&mut tops, width, from, starts[block + 1] as usize * width);
    }
    Ok(tops)
}

/// For each number the least of those that stand in its column in the rows of its block from its own on.
pub fn floors_of(
    alloc: Global,
    starts: &[u32],
    numbers: &[u32],
    width: usize,
) -> Result<Vec<u32>, Memory>
    requires width { 0 < width }
    requires narrow { width ≤ 15 }
    requires rows { (rows : ℕ) × (rows < 2 ^ 20) × AreBlocks width rows starts.now × (length numbers.now ≡ rows * width) }
    ensures { IfOk result (λ floors. AreFloors width width starts.now numbers.now floors.items) }
{
    let mut floors = Vec::from_slice(alloc, numbers)?;
    for block in 0..width {
        let (from, to) = (starts[block] as usize, starts[block + 1] as usize);
        if from < to {
            lower(&mut floors, width, from * width, (to - 1) * width);
        }
    }
    Ok(floors)
}
