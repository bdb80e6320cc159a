// From each place of a row of answers the next one that is yes.
ghost use Rattle.std.specs.Prelude.{◌<◌, ◌^◌, IfOk, length};
ghost use Rattle.audit.specs.NextSet.{AreNextSet};

use light_base::Memory;
use std::alloc::Global;

/// For each place the first one from there on that is set, or the number of places where none is; and that number at the end.
pub fn next_set(alloc: Global, set: &[bool]) -> Result<Vec<u32>, Memory>
    requires { length set.now < 2 ^ 32 }
    ensures { IfOk result (λ next. AreNextSet set.now next.items) }
{
    let mut next: Vec<u32> = Vec::new(alloc);
    let mut left = set.len();
    next.resize(left + 1, left as u32)?;
    while left > 0 {
        left -= 1;
        next[left] = if set[left] {
            left as u32
        } else {
            next[left + 1]
        };
    }
    Ok(next)
}
