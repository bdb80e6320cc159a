// `record`: the log that is saved and the transcript that is printed. The digests are those of another program.
use super::contents::{Content, LOST_UPDATE, OWN_WRITE_READ, SMALLEST, SMALLEST_TEXT, TWO_FLAGS};
use super::histories::{OTHER_WRITER, OTHER_WRITER_LOG};
use super::rows::{DONE, Row};

// The log of the smallest program under limits of 10.
const SMALLEST_LOG_BYTES: &str =
    "4c4c4732 01 0001 03c0797a3fa7c306a00ed5c26b8fc1a0cdcc1dfd5ace36b9d02276973157950b 0000000a 0000000a 0000000a 00 00000000 00000000 00000000 00000000 00000000 00000000";

pub const SMALLEST_LOG: Content = Content::Hex(SMALLEST_LOG_BYTES);

// What is printed of two threads that may take no step.
pub const NO_STEPS_TEXT: Content = Content::Text(
    "thread 0 steps-spent steps 0 instr 0/thread 1 steps-spent steps 0 instr 0/",
);

// What is printed of a compare-exchange between whose steps another thread wrote.
pub const OTHER_WRITER_TEXT: Content = Content::Text(
    "thread 0 halted steps 2 instr 5/out 2/out 5/thread 1 halted steps 1 instr 2/word 0 5/",
);

// The log of a thread that reads what it wrote, under limits of 100: one entry.
pub const OWN_WRITE_READ_BYTES: &str =
    "4c4c4732 01 0001 b4ccf6448bc45676a64744e28389f90c21d30e4190e9c413417dc0164e6fc1e5 00000064 00000064 00000064 00 00000000 00000002 00000004 00000001 00000000 10000001 0000 10000001 00000002 00000002";

pub const OWN_WRITE_READ_LOG: Content = Content::Hex(OWN_WRITE_READ_BYTES);

// The log of two threads that may take no step.
pub const NO_STEPS_LOG: Content = Content::Hex(
    "4c4c4732 02 0001 cd76f743851e5d628d83f0d36718aea1600063245992e8e8a0cb1134d7692f8d 00000000 00000064 00000064 03 00000000 00000000 00000000 00000000 00000000 03 00000000 00000000 00000000 00000000 00000000 00000000",
);

// 4,096 words. Thread 0 loads word 4,096; thread 1 loads word 0 by an address that wraps round, and puts it out.
const ADDRESSES: Content = Content::Wide(
    "4c494d31 02 1000 0001 0003",
    16_384,
    "1101000000001000 01010000ffffffff 1102010000000001 1002000000000000",
);

const ADDRESSES_LOG: Content = Content::Wide(
    "4c4c4732 02 1000 b441e11db89b22504d5bf2ebfa8d66bea7fe1138d7287efa4342c47de67e49fb 00000064 00000064 00000064 02 00001000 00000000 00000000 00000000 00000000 00 00000000 00000001 00000003 00000001 00000000",
    16_384,
    "0000 00000000 00000001 00000001",
);

// Programs that are recorded.
pub static RECORDED: [Row; 7] = [
    Row {
        words: "record i l 10 10 10",
        files: &[("i", SMALLEST)],
        text: SMALLEST_TEXT,
        after: &[("l", SMALLEST_LOG)],
        ..DONE
    },
    Row {
        words: "record i l 100 100 100",
        files: &[("i", OWN_WRITE_READ), ("l", SMALLEST_LOG)],
        text: Content::Text("thread 0 halted steps 2 instr 4/out 7/word 0 7/"),
        after: &[("l", OWN_WRITE_READ_LOG)],
        ..DONE
    },
    Row {
        words: "record i l 0 100 100",
        files: &[("i", LOST_UPDATE)],
        text: NO_STEPS_TEXT,
        after: &[("l", NO_STEPS_LOG)],
        ..DONE
    },
    Row {
        words: "record i l 100 100 100",
        files: &[("i", ADDRESSES)],
        text: Content::Text(
            "thread 0 bad-address 4096 steps 0 instr 0/thread 1 halted steps 1 instr 3/out 0/",
        ),
        after: &[("l", ADDRESSES_LOG)],
        ..DONE
    },
    // One worker, on which the threads take turns of one step, and of two.
    Row {
        words: "record i l 100 100 100 1 1",
        files: &[("i", TWO_FLAGS)],
        text: Content::Text(
            "thread 0 halted steps 2 instr 4/thread 1 halted steps 2 instr 4/word 0 1/word 1 1/",
        ),
        ..DONE
    },
    Row {
        words: "record i l 100 100 100 1 2",
        files: &[("i", TWO_FLAGS)],
        text: Content::Text(
            "thread 0 halted steps 3 instr 6/thread 1 halted steps 2 instr 4/word 0 1/word 1 1/",
        ),
        ..DONE
    },
    // The compare-exchange is cut between its two steps.
    Row {
        words: "record i l 100 100 100 1 1",
        files: &[("i", OTHER_WRITER)],
        text: OTHER_WRITER_TEXT,
        after: &[("l", OTHER_WRITER_LOG)],
        ..DONE
    },
];

// A save that fails leaves the first half of the log. Where the load fails there is none; where a put fails it is whole.
pub static FAULTS: [Row; 3] = [
    Row {
        words: "record i l 10 10 10",
        files: &[("i", SMALLEST)],
        calls: &[2],
        status: "store fault",
        after: &[("l", Content::Sized(SMALLEST_LOG_BYTES, 38))],
        ..DONE
    },
    Row {
        words: "record i l 10 10 10",
        files: &[("i", SMALLEST)],
        calls: &[1],
        status: "store fault",
        after: &[("l", Content::Absent)],
        ..DONE
    },
    Row {
        words: "record i l 10 10 10",
        files: &[("i", SMALLEST)],
        puts: &[2],
        status: "output fault",
        text: Content::Text("threa"),
        after: &[("l", SMALLEST_LOG)],
        ..DONE
    },
];
