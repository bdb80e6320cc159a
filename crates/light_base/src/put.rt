// Numbers at the end of bytes, the highest byte first.
ghost use Rattle.std.specs.Prelude.{◌≡◌, ◌++◌, Some, length, OnOk, OnErr};
ghost use Rattle.std.specs.Int.{w16, w32, to_be_bytes};
ghost use Rattle.light_base.specs.Numbers.{big_endian_at};

use crate::Memory;

/// Appends the two big-endian bytes of a number. After `Memory` nothing was appended.
pub fn put_u16(out: &mut Vec<u8>, n: u16) -> Result<(), Memory>
    ensures ok { OnOk result (out.new.items ≡ out.old.items ++ to_be_bytes w16 n) }
    ensures read { OnOk result (big_endian_at w16 out.new.items (length out.old.items) ≡ Some n) }
    ensures err { OnErr result (out.new.items ≡ out.old.items) }
{
    out.extend_from_slice(&n.to_be_bytes())?;
    Ok(())
}

/// Appends the four big-endian bytes of a number. After `Memory` nothing was appended.
pub fn put_u32(out: &mut Vec<u8>, n: u32) -> Result<(), Memory>
    ensures ok { OnOk result (out.new.items ≡ out.old.items ++ to_be_bytes w32 n) }
    ensures read { OnOk result (big_endian_at w32 out.new.items (length out.old.items) ≡ Some n) }
    ensures err { OnErr result (out.new.items ≡ out.old.items) }
{
    out.extend_from_slice(&n.to_be_bytes())?;
    Ok(())
}
