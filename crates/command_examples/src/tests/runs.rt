// `run`: images that are played, and those that are not.
use super::contents::{
    Content, INITIAL_VALUE, LOST_UPDATE, OWN_WRITE_READ, SMALLEST, SMALLEST_BYTES, SMALLEST_TEXT,
};
use super::recordings::NO_STEPS_TEXT;
use super::rows::{DONE, Row};

// A thread that loads and jumps back.
const LOADS: Content = Content::Hex(
    "4c494d31 01 0001 0002 00000000 1101000000000000 0d00000000000000",
);

// Images that are played: one by the greatest limits, under a name of any kind, and one until a million steps are spent.
pub static PLAYED: [Row; 6] = [
    Row {
        words: "run i 10 10 10",
        files: &[("i", SMALLEST)],
        text: SMALLEST_TEXT,
        ..DONE
    },
    Row {
        words: "run i 100 100 100",
        files: &[("i", OWN_WRITE_READ)],
        text: Content::Text("thread 0 halted steps 2 instr 4/out 7/word 0 7/"),
        ..DONE
    },
    Row {
        words: "run i 100 100 100",
        files: &[("i", INITIAL_VALUE)],
        text: Content::Text(
            "thread 0 halted steps 1 instr 2/out 5/thread 1 halted steps 1 instr 2/word 0 9/",
        ),
        ..DONE
    },
    Row {
        words: "run i 0 100 100",
        files: &[("i", LOST_UPDATE)],
        text: NO_STEPS_TEXT,
        ..DONE
    },
    Row {
        words: "run -i 268435455 1073741824 16384",
        files: &[("-i", SMALLEST)],
        text: SMALLEST_TEXT,
        ..DONE
    },
    Row {
        words: "run i 1000000 1073741824 100",
        files: &[("i", LOADS)],
        text: Content::Text("thread 0 steps-spent steps 1000000 instr 2000000/"),
        ..DONE
    },
];

// Bytes that are no image.
pub static REFUSED: [Row; 5] = [
    Row {
        words: "run i 1 1 1",
        files: &[("i", Content::Sized("", 8_388_609))],
        status: "too long: 8388609",
        ..DONE
    },
    Row {
        words: "run i 1 1 1",
        files: &[(
            "i",
            Content::Hex("4c494d31 01 0001 0001 00000000 1600000000000000"),
        )],
        status: "image refused kind 4 thread 0 at 0",
        ..DONE
    },
    Row {
        words: "run i 1 1 1",
        files: &[(
            "i",
            Content::Hex("4c494d31 01 0001 0001 00000000 0001000000000000"),
        )],
        status: "image refused kind 6 thread 0 at 0",
        ..DONE
    },
    Row {
        words: "run i 1 1 1",
        files: &[("i", Content::Sized(SMALLEST_BYTES, 8_388_608))],
        status: "image refused kind 8 thread 0 at 0",
        ..DONE
    },
    Row {
        words: "run i 1 1 1",
        files: &[("i", Content::Sized(SMALLEST_BYTES, 20))],
        status: "image refused kind 1 thread 0 at 0",
        ..DONE
    },
];

// Calls of the store that fail, and a name that is not there.
pub static FAULTS: [Row; 4] = [
    Row {
        words: "run i 1 1 1",
        files: &[("i", SMALLEST)],
        calls: &[1],
        status: "store fault",
        ..DONE
    },
    Row {
        words: "run i 1 1 1",
        files: &[("i", SMALLEST)],
        calls: &[2],
        text: SMALLEST_TEXT,
        ..DONE
    },
    Row {
        words: "run x 1 1 1",
        files: &[("i", SMALLEST)],
        calls: &[2],
        status: "store fault",
        ..DONE
    },
    Row {
        words: "run x 1 1 1",
        status: "store fault",
        ..DONE
    },
];
