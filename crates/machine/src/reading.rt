// Reading numbers in a row.
ghost use Rattle.std.specs.Prelude.{◌≡◌, ◌*◌, ◌≤◌, IfOk, length};
ghost use Rattle.std.specs.Int.{w32};
ghost use Rattle.machine.specs.Reading.{numbers_at};

use light_base::u32_at;
use std::alloc::{AllocError, Global};

/// So many big-endian numbers of 32 bits, which are there.
pub fn numbers_of(alloc: Global, count: usize, bytes: &[u8]) -> Result<Vec<u32>, AllocError>
    requires { 4 * count ≤ length bytes.now }
    ensures { IfOk result (λ numbers. numbers.items ≡ numbers_at w32 count bytes.now) }
{
    let mut numbers = Vec::with_capacity(alloc, count)?;
    for i in 0..count {
        numbers.push(u32_at(bytes, 4 * i).unwrap())?;
    }
    Ok(numbers)
}
