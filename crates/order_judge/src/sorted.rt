// Live ranges by word and start.
ghost use Rattle.std.specs.Prelude.{◌≡◌, ◌^◌, ◌<◌, IfOk, length};
ghost use Rattle.order_judge.specs.Sorted.{AreNumbered, AreSorted};

use crate::live_ranges::LiveRange;
use light_base::Memory;
use std::alloc::Global;

// A live range with its number in the list that is sorted.
#[derive(Clone, Copy, PartialEq, Eq, PartialOrd, Ord)]
pub(crate) struct Numbered {
    pub(crate) range: LiveRange,
    pub(crate) number: u32,
}

// The live ranges with their numbers.
fn with_numbers(alloc: Global, ranges: &[LiveRange]) -> Result<Vec<Numbered>, Memory>
    requires { length ranges.now < 2 ^ 32 }
    ensures { IfOk result (λ all. AreNumbered ranges.now all.items) }
{
    let mut all = Vec::with_capacity(alloc, ranges.len())?;
    for (i, range) in ranges.iter().enumerate() {
        all.push(Numbered {
            range: *range,
            number: i as u32,
        })?;
    }
    Ok(all)
}

// The live ranges with their numbers, by word and start.
pub(crate) fn sort(alloc: Global, ranges: &[LiveRange]) -> Result<Vec<Numbered>, Memory>
    requires { length ranges.now < 2 ^ 32 }
    ensures numbered { IfOk result (λ sorted. AreNumbered ranges.now sorted.items) }
    ensures sorted { IfOk result (λ sorted. AreSorted sorted.items) }
{
    let mut sorted = with_numbers(alloc, ranges)?;
    sorted.sort_unstable();
    Ok(sorted)
}
