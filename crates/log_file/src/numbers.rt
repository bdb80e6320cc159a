// Numbers at a place of bytes that go so far.
ghost use Rattle.std.specs.Prelude.{◌≡◌, ◌+◌, ◌≤◌, length};
ghost use Rattle.log_file.specs.LogReading.{half_at, number_at};

use light_base::{u16_at, u32_at};

// The number of 16 bits at a place.
pub(crate) fn half_at(bytes: &[u8], at: usize) -> u16
    requires { at + 2 ≤ length bytes.now }
    ensures { result ≡ half_at bytes.now at }
{
    u16_at(bytes, at).unwrap()
}

// The number of 32 bits at a place.
pub(crate) fn number_at(bytes: &[u8], at: usize) -> u32
    requires { at + 4 ≤ length bytes.now }
    ensures { result ≡ number_at bytes.now at }
{
    u32_at(bytes, at).unwrap()
}
