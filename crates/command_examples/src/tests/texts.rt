// `asm` and `list`: texts that become images, and images that are printed as text.
use super::contents::{
    Content, INITIAL_VALUE, MESSAGE, OWN_WRITE_READ, SMALLEST, SMALLEST_BYTES, SMALLEST_SOURCE,
};
use super::rows::{DONE, Row};

const MESSAGE_SOURCE: Content = Content::Text(
    "; message passing/.words 2/.thread/set r1, 42/store r1 r0 0/set r2 1/store r2 r0 1/.thread/wait: load r1 r0 1/jeq r1 r0 wait/load r2 r0 0/out r2/",
);

const MESSAGE_LISTED: Content = Content::Text(
    ".words 2/.thread/set r1 42/store r1 r0 0/set r2 1/store r2 r0 1/.thread/load r1 r0 1/jeq r1 r0 0/load r2 r0 0/out r2/",
);

const INITIAL_SOURCE: Content = Content::Text(
    ".words 1/.init 0 5/.thread/load r1 r0 0/out r1/.thread/set r1 9/store r1 r0 0/",
);

// Texts that are assembled. The image may take the place of its text.
pub static ASSEMBLED: [Row; 5] = [
    Row {
        words: "asm t i",
        files: &[("t", SMALLEST_SOURCE)],
        after: &[("i", SMALLEST)],
        ..DONE
    },
    Row {
        words: "asm t i",
        files: &[("t", MESSAGE_SOURCE)],
        after: &[("i", MESSAGE)],
        ..DONE
    },
    Row {
        words: "asm t i",
        files: &[("t", MESSAGE_LISTED)],
        after: &[("i", MESSAGE)],
        ..DONE
    },
    Row {
        words: "asm t i",
        files: &[("t", INITIAL_SOURCE)],
        after: &[("i", INITIAL_VALUE)],
        ..DONE
    },
    Row {
        words: "asm t t",
        files: &[("t", INITIAL_SOURCE)],
        after: &[("t", INITIAL_VALUE)],
        ..DONE
    },
];

// Images that are listed.
pub static LISTED: [Row; 4] = [
    Row {
        words: "list i",
        files: &[("i", SMALLEST)],
        text: SMALLEST_SOURCE,
        ..DONE
    },
    Row {
        words: "list i",
        files: &[("i", MESSAGE)],
        text: MESSAGE_LISTED,
        ..DONE
    },
    Row {
        words: "list i",
        files: &[("i", INITIAL_VALUE)],
        text: INITIAL_SOURCE,
        ..DONE
    },
    Row {
        words: "list i",
        files: &[("i", OWN_WRITE_READ)],
        text: Content::Text(".words 1/.thread/set r1 7/store r1 r0 0/load r2 r0 0/out r2/"),
        ..DONE
    },
];

// Bytes that are no text or no image, and names that are not there.
pub static REFUSED: [Row; 9] = [
    Row {
        words: "asm t i",
        files: &[("t", Content::Text(""))],
        status: "text refused line 1 kind 9",
        after: &[("i", Content::Absent)],
        ..DONE
    },
    Row {
        words: "asm t i",
        files: &[("t", Content::Text(".thread/fetch r1"))],
        status: "text refused line 2 kind 2",
        after: &[("i", Content::Absent)],
        ..DONE
    },
    Row {
        words: "asm t i",
        files: &[("t", Content::Text(".words 1/.thread/jmp nowhere"))],
        status: "text refused line 3 kind 7",
        after: &[("i", Content::Absent)],
        ..DONE
    },
    Row {
        words: "list t",
        files: &[("t", Content::Sized("", 8_388_609))],
        status: "too long: 8388609",
        after: &[("i", Content::Absent)],
        ..DONE
    },
    Row {
        words: "asm t i",
        files: &[("t", Content::Sized("", 8_388_609))],
        status: "too long: 8388609",
        after: &[("i", Content::Absent)],
        ..DONE
    },
    Row {
        words: "list t",
        files: &[("t", Content::Sized(SMALLEST_BYTES, 8_388_608))],
        status: "image refused kind 8 thread 0 at 0",
        after: &[("i", Content::Absent)],
        ..DONE
    },
    Row {
        words: "list t",
        files: &[("t", SMALLEST_SOURCE)],
        status: "image refused kind 2 thread 0 at 0",
        after: &[("i", Content::Absent)],
        ..DONE
    },
    Row {
        words: "list none",
        files: &[("t", SMALLEST_SOURCE)],
        status: "store fault",
        after: &[("i", Content::Absent)],
        ..DONE
    },
    Row {
        words: "asm none i",
        files: &[("t", SMALLEST_SOURCE)],
        status: "store fault",
        after: &[("i", Content::Absent)],
        ..DONE
    },
];

// Calls of the store that fail. A save that fails leaves the first half of the image.
pub static FAULTS: [Row; 5] = [
    Row {
        words: "asm t i",
        files: &[("t", SMALLEST_SOURCE)],
        calls: &[1],
        puts: &[1],
        status: "store fault",
        after: &[("i", Content::Absent)],
        ..DONE
    },
    Row {
        words: "asm t i",
        files: &[("t", SMALLEST_SOURCE)],
        calls: &[2],
        puts: &[1],
        status: "store fault",
        after: &[("i", Content::Sized(SMALLEST_BYTES, 10))],
        ..DONE
    },
    Row {
        words: "asm t i",
        files: &[("t", SMALLEST_SOURCE)],
        calls: &[3],
        puts: &[1],
        after: &[("i", SMALLEST)],
        ..DONE
    },
    Row {
        words: "list i",
        files: &[("i", SMALLEST)],
        calls: &[1],
        status: "store fault",
        ..DONE
    },
    Row {
        words: "list i",
        files: &[("i", SMALLEST)],
        calls: &[2],
        text: SMALLEST_SOURCE,
        ..DONE
    },
];
