// Tags and their numbers, numbers in bytes and numbers as text.
use light_base::{Event, Tag, put_decimal, u16_at, u32_at};
use std::test::Fail;

#[test]
fn tags_and_their_numbers(rt: HostRuntime) -> Result<(), Fail> {
    for (thread, step, bits) in [
        (0, 1, 0x1000_0001),
        (1, 2, 0x2000_0002),
        (14, 0xfff_ffff, 0xffff_ffff),
    ] {
        let tag = Tag::of(thread, step).ok_or("no tag")?;
        assert_eq!(rt; tag.bits(), bits);
        assert_eq!(rt; tag.writer(), Some(Event { thread, step }));
        assert_eq!(rt; Tag::from_bits(bits), Some(tag));
    }
    for (thread, step) in [(15, 1), (0, 0), (0, 0x1000_0000)] {
        assert_eq!(rt; Tag::of(thread, step), None);
    }
    for bits in [1, 0xfff_ffff, 0x1000_0000, 0xf000_0000] {
        assert_eq!(rt; Tag::from_bits(bits), None);
    }
    assert_eq!(rt; Tag::from_bits(0), Some(Tag::INITIAL));
    assert_eq!(rt; Tag::INITIAL.bits(), 0);
    assert_eq!(rt; Tag::INITIAL.writer(), None);

    let first = Event { thread: 0, step: 1 }.tag();
    let second = Event { thread: 0, step: 2 }.tag();
    let other = Event { thread: 1, step: 1 }.tag();
    assert!(rt; Tag::INITIAL < first && first < second && second < other);
    Ok(())
}

#[test]
fn numbers_in_bytes(rt: HostRuntime) {
    let bytes = [0x4c, 0x49, 0x4d, 0x31, 0x01];
    assert_eq!(rt; u16_at(&bytes, 0), Some(0x4c49));
    assert_eq!(rt; u16_at(&bytes, 3), Some(0x3101));
    assert_eq!(rt; u16_at(&bytes, 4), None);
    assert_eq!(rt; u32_at(&bytes, 1), Some(0x494d_3101));
    assert_eq!(rt; u32_at(&bytes, 2), None);
    assert_eq!(rt; u32_at(&bytes, usize::MAX), None);
}

#[test]
fn decimal_numbers(rt: HostRuntime) -> Result<(), Fail> {
    let mut out = Vec::from_slice(rt.alloc(), b"steps ")?;
    put_decimal(&mut out, 0)?;
    put_decimal(&mut out, u64::MAX)?;
    assert_eq!(rt; out.as_slice(), b"steps 018446744073709551615".as_slice());
    Ok(())
}
