// Numbers in bytes, the highest byte first.
ghost use Rattle.std.specs.Prelude.{◌≡◌, ◌↔◌, ◌+◌, ◌^◌, ◌<◌, ◌≤◌, ℕ, Some, length, slice_range, IsSome, MatchOption};
ghost use Rattle.std.specs.Int.{w16, w32, to_be_bytes};
ghost use Rattle.light_base.specs.Numbers.{big_endian_at, IsPart};

use byteorder::{BigEndian, ByteOrder};

// A field of so many bytes at a place. None where the bytes end before.
fn field_at(bytes: &[u8], at: usize, len: usize) -> Option<&[u8]>
    ensures { MatchOption result (length bytes.now < at + len) (λ field. IsPart bytes.now at len field.now) }
{
    bytes.get(at..)?.get(..len)
}

/// The number of 16 bits whose big-endian bytes stand at place `at`. None exactly where the bytes end before.
pub fn u16_at(bytes: &[u8], at: usize) -> Option<u16>
    ensures value { result ≡ big_endian_at w16 bytes.now at }
    ensures there { IsSome result ↔ (at + 2 ≤ length bytes.now) }
    ensures spelled { (n : ℕ) → n < 2 ^ 16 → (result ≡ Some n) ↔ (slice_range bytes.now at (at + 2) ≡ to_be_bytes w16 n) }
{
    Some(BigEndian::read_u16(field_at(bytes, at, 2)?))
}

/// The number of 32 bits whose big-endian bytes stand at place `at`. None exactly where the bytes end before.
pub fn u32_at(bytes: &[u8], at: usize) -> Option<u32>
    ensures value { result ≡ big_endian_at w32 bytes.now at }
    ensures there { IsSome result ↔ (at + 4 ≤ length bytes.now) }
    ensures spelled { (n : ℕ) → n < 2 ^ 32 → (result ≡ Some n) ↔ (slice_range bytes.now at (at + 4) ≡ to_be_bytes w32 n) }
{
    Some(BigEndian::read_u32(field_at(bytes, at, 4)?))
}
