// Images: those that are read and written back, and the first fault of the others.
use machine::ImageKind::{Counts, Long, Magic, Opcode, Register, Short, Target, Unused};
use machine::{ImageFault, ImageKind, read_image, write_image};
use std::test::Fail;

// One thread that halts.
const HALTS: &[u8] = &[
    0x4c, 0x49, 0x4d, 0x31, 1, 0, 1, 0, 1, 0, 0, 0, 0, 0, 0, 0, 0, 0, 0, 0, 0,
];

// set r1 7, store r1 r0 0, load r2 r0 0, out r2.
const OWN_WRITE: &[u8] = &[
    0x4c, 0x49, 0x4d, 0x31, 1, 0, 1, 0, 4, 0, 0, 0, 0, 0x01, 1, 0, 0, 0, 0, 0, 7, 0x12, 1, 0, 0, 0,
    0, 0, 0, 0x11, 2, 0, 0, 0, 0, 0, 0, 0x10, 2, 0, 0, 0, 0, 0, 0,
];

// load r1 r0 0, out r1; and set r1 9, store r1 r0 0. The word begins with 5.
const TWO: &[u8] = &[
    0x4c, 0x49, 0x4d, 0x31, 2, 0, 1, 0, 2, 0, 2, 0, 0, 0, 5, 0x11, 1, 0, 0, 0, 0, 0, 0, 0x10, 1, 0,
    0, 0, 0, 0, 0, 0x01, 1, 0, 0, 0, 0, 0, 9, 0x12, 1, 0, 0, 0, 0, 0, 0,
];

// jeq r0 r0 1, which leads to the end of its code.
const JUMP: &[u8] = &[
    0x4c, 0x49, 0x4d, 0x31, 1, 0, 1, 0, 1, 0, 0, 0, 0, 0x0d, 0, 0, 0, 0, 0, 0, 1,
];

// Two words, the second 0x01020304; a thread with no instruction; one with addi r3 r2 0xa0b0c0d0.
const MANY_BYTES: &[u8] = &[
    0x4c, 0x49, 0x4d, 0x31, 2, 0, 2, 0, 0, 0, 1, 0, 0, 0, 0, 1, 2, 3, 4, 0x0b, 3, 2, 0, 0xa0, 0xb0,
    0xc0, 0xd0,
];

// Images, their words, and how many instructions their threads have.
static IMAGES: [(&[u8], &[u32], &[usize]); 5] = [
    (HALTS, &[0], &[1]),
    (OWN_WRITE, &[0], &[4]),
    (TWO, &[5], &[2, 2]),
    (JUMP, &[0], &[1]),
    (MANY_BYTES, &[0, 0x0102_0304], &[0, 1]),
];

#[test]
fn images_are_read_and_written_back(rt: HostRuntime) -> Result<(), Fail> {
    let alloc = rt.alloc();
    for (image, words, lengths) in &IMAGES {
        let program = read_image(alloc, image)
            .ok()
            .ok_or("the bytes are an image")?;
        assert_eq!(rt; program.words(), *words);
        assert_eq!(rt; program.threads_count(), lengths.len());
        for (thread, len) in lengths.iter().enumerate() {
            assert!(rt; thread < program.threads_count());
            assert_eq!(rt; program.threads(thread).len(), *len);
        }
        assert_eq!(rt; write_image(alloc, &program)?.as_slice(), *image);
        let (values, codes) = program.into_parts();
        assert_eq!(rt; values.as_slice(), *words);
        assert!(rt;
            codes
                .iter()
                .map(|code| code.len())
                .eq(lengths.iter().copied())
        );
    }
    Ok(())
}

// An image with the byte at a place changed, as many bytes of it as are given, and the fault with its thread and place.
static FAULTY: [(&[u8], usize, u8, usize, ImageKind, u8, u16); 19] = [
    (HALTS, 0, 0x4c, 20, Short, 0, 0),
    (HALTS, 0, 0x4c, 6, Short, 0, 0),
    (HALTS, 4, 8, 21, Short, 0, 0),
    (TWO, 10, 3, 47, Short, 0, 0),
    (HALTS, 3, 0x32, 21, Magic, 0, 0),
    (HALTS, 3, 0x32, 6, Short, 0, 0),
    (HALTS, 4, 0, 21, Counts, 0, 0),
    (TWO, 4, 16, 47, Counts, 0, 0),
    (HALTS, 6, 0, 21, Counts, 0, 0),
    (HALTS, 5, 0x10, 21, Counts, 0, 0),
    (TWO, 9, 0x10, 47, Counts, 0, 0),
    (HALTS, 13, 22, 21, Opcode, 0, 0),
    (TWO, 39, 255, 47, Opcode, 1, 1),
    (TWO, 24, 16, 47, Register, 0, 1),
    (TWO, 32, 16, 47, Register, 1, 0),
    (HALTS, 14, 1, 21, Unused, 0, 0),
    (TWO, 30, 1, 47, Unused, 0, 1),
    (JUMP, 20, 2, 21, Target, 0, 0),
    (TWO, 10, 1, 47, Long, 0, 0),
];

#[test]
fn faults_of_images_are_told(rt: HostRuntime) -> Result<(), Fail> {
    let alloc = rt.alloc();
    for (image, place, byte, len, kind, thread, at) in &FAULTY {
        let mut bytes = Vec::from_slice(alloc, image)?;
        assert!(rt; *place < bytes.len() && *len <= bytes.len());
        bytes[*place] = *byte;
        let fault = ImageFault {
            kind: *kind,
            thread: *thread,
            at: *at,
        };
        assert_eq!(rt;
            read_image(alloc, &bytes[..*len]).err(),
            Some(fault),
            "byte {place} as {byte}"
        );
    }

    // The first 21 of these bytes are an image.
    let mut longer = Vec::from_slice(alloc, HALTS)?;
    longer.push(0)?;
    assert_eq!(rt;
        read_image(alloc, &longer).err(),
        Some(ImageFault::whole(Long))
    );
    Ok(())
}
