// A thread may put out 65,536 values, and ends before it puts out one more.
use super::contents::Content;
use super::rows::{DONE, Row};

// They count up from 0, while the next one is below 65,536, or below 65,537.
const MOST_SOURCE: Content = Content::Text(
    ".words 1/.thread/set r1 65536/next: out r2/addi r2 r2 1/jlt r2 r1 next/",
);

const MOST: Content = Content::Hex(
    "4c494d31 01 0001 0004 00000000 0101000000010000 1002000000000000 0b02020000000001 0f02010000000001",
);

const ONE_MORE_SOURCE: Content = Content::Text(
    ".words 1/.thread/set r1 65537/next: out r2/addi r2 r2 1/jlt r2 r1 next/",
);

const ONE_MORE: Content = Content::Hex(
    "4c494d31 01 0001 0004 00000000 0101000000010001 1002000000000000 0b02020000000001 0f02010000000001",
);

const MOST_TEXT: Content = Content::Counted("thread 0 halted steps 0 instr 196609/", 65_536);

const ONE_MORE_TEXT: Content = Content::Counted(
    "thread 0 output-full steps 0 instr 196609/",
    65_536,
);

// The logs under limits of 1, 1,000,000 and 1. The digests are those of another program.
const MOST_LOG: Content = Content::Hex(
    "4c4c4732 01 0001 f64ee01bd5780005a8af457aec9b6e5a8e4564dd74f173cb3f5f693655db54cc 00000001 000f4240 00000001 00 00000000 00000000 00030001 00000000 00000000 00000000",
);

const ONE_MORE_LOG: Content = Content::Hex(
    "4c4c4732 01 0001 39e442f65f8f3183f6bec13693a15b153431ac7189543f9a31aee8563f593768 00000001 000f4240 00000001 05 00000000 00000000 00030001 00000000 00000000 00000000",
);

pub static OUTPUTS: [Row; 6] = [
    Row {
        words: "asm t i",
        files: &[("t", MOST_SOURCE)],
        after: &[("i", MOST)],
        ..DONE
    },
    Row {
        words: "run i 1 1000000 1",
        files: &[("i", MOST)],
        text: MOST_TEXT,
        ..DONE
    },
    Row {
        words: "record i l 1 1000000 1",
        files: &[("i", MOST)],
        text: MOST_TEXT,
        after: &[("l", MOST_LOG)],
        ..DONE
    },
    Row {
        words: "asm t i",
        files: &[("t", ONE_MORE_SOURCE)],
        after: &[("i", ONE_MORE)],
        ..DONE
    },
    Row {
        words: "run i 1 1000000 1",
        files: &[("i", ONE_MORE)],
        text: ONE_MORE_TEXT,
        ..DONE
    },
    Row {
        words: "record i l 1 1000000 1",
        files: &[("i", ONE_MORE)],
        text: ONE_MORE_TEXT,
        after: &[("l", ONE_MORE_LOG)],
        ..DONE
    },
];
