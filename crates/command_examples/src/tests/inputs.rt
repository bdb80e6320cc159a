// `run` and `record` with inputs. The digests are those of another program.
use super::contents::{Content, SMALLEST};
use super::rows::{DONE, Row};

// A thread that takes two input numbers and puts out each.
pub const TAKER: Content = Content::Hex(
    "4c494d31 01 0001 0004 00000000 1501000000000000 1001000000000000 1501000000000000 1001000000000000",
);

const SEVEN_BYTES: &str = "4c494e31 01 00000001 00000007";

pub const SEVEN: Content = Content::Hex(SEVEN_BYTES);

const SEVEN_TO_NINE: Content = Content::Hex("4c494e31 01 00000003 00000007 00000008 00000009");

const TWO_LISTS: Content = Content::Hex("4c494e31 02 00000000 00000001 00000007");

const EMPTY_TEXT: Content = Content::Text("thread 0 input-empty steps 0 instr 0/");

pub const SEVEN_TEXT: Content = Content::Text("thread 0 input-empty steps 0 instr 2/out 7/");

pub const SEVEN_TO_NINE_TEXT: Content = Content::Text(
    "thread 0 halted steps 0 instr 4/out 7/out 8/",
);

// The logs under limits of 100: what was taken stands in them.
const EMPTY_LOG: Content = Content::Hex(
    "4c4c4732 01 0001 f2090ae0ae55df66c999a269b0ade029a08f2f64f23585ce0103be5814a4e7ae 00000064 00000064 00000064 06 00000000 00000000 00000000 00000000 00000000 00000000",
);

pub const SEVEN_LOG: Content = Content::Hex(
    "4c4c4732 01 0001 f2090ae0ae55df66c999a269b0ade029a08f2f64f23585ce0103be5814a4e7ae 00000064 00000064 00000064 06 00000000 00000000 00000002 00000000 00000001 00000000 00000007",
);

pub const SEVEN_TO_NINE_LOG: Content = Content::Hex(
    "4c4c4732 01 0001 f2090ae0ae55df66c999a269b0ade029a08f2f64f23585ce0103be5814a4e7ae 00000064 00000064 00000064 00 00000000 00000000 00000004 00000000 00000002 00000000 00000007 00000008",
);

// Two threads that each put out a number of their own, which the first writes to word 0 too.
const OWN_NUMBERS: Content = Content::Hex(
    "4c494d31 02 0001 0003 0002 00000000 1501000000000000 1201000000000000 1001000000000000 1501000000000000 1001000000000000",
);

const FIVE_AND_SIX: Content = Content::Hex("4c494e31 02 00000001 00000001 00000005 00000006");

pub static TAKEN: [Row; 8] = [
    Row {
        words: "run i 100 100 100 n",
        files: &[("i", OWN_NUMBERS), ("n", FIVE_AND_SIX)],
        text: Content::Text(
            "thread 0 halted steps 1 instr 3/out 5/thread 1 halted steps 0 instr 2/out 6/word 0 5/",
        ),
        ..DONE
    },
    Row {
        words: "run i 100 100 100 n",
        files: &[("i", TAKER), ("n", SEVEN)],
        text: SEVEN_TEXT,
        ..DONE
    },
    Row {
        words: "run i 100 100 100",
        files: &[("i", TAKER), ("n", SEVEN)],
        text: EMPTY_TEXT,
        ..DONE
    },
    Row {
        words: "run i 100 100 100 n",
        files: &[("i", TAKER), ("n", SEVEN_TO_NINE)],
        text: SEVEN_TO_NINE_TEXT,
        ..DONE
    },
    Row {
        words: "record i l 100 100 100 n",
        files: &[("i", TAKER), ("n", SEVEN)],
        text: SEVEN_TEXT,
        after: &[("l", SEVEN_LOG)],
        ..DONE
    },
    Row {
        words: "record i l 100 100 100 n",
        files: &[("i", TAKER), ("n", SEVEN_TO_NINE)],
        text: SEVEN_TO_NINE_TEXT,
        after: &[("l", SEVEN_TO_NINE_LOG)],
        ..DONE
    },
    Row {
        words: "record i l 100 100 100",
        files: &[("i", TAKER)],
        text: EMPTY_TEXT,
        after: &[("l", EMPTY_LOG)],
        ..DONE
    },
    // The inputs may have any name, and the log may take their place.
    Row {
        words: "record i 2 100 100 100 2",
        files: &[("i", TAKER), ("2", SEVEN)],
        text: SEVEN_TEXT,
        after: &[("2", SEVEN_LOG)],
        ..DONE
    },
];

// A recording that leaves no log.
const RECORDED: Row = Row {
    words: "record i l 100 100 100 n",
    after: &[("l", Content::Absent)],
    ..DONE
};

// Bytes that are no inputs, and inputs of another number of threads. The image is looked at first.
pub static REFUSED: [Row; 7] = [
    Row {
        files: &[("i", SMALLEST), ("n", Content::Sized(SEVEN_BYTES, 12))],
        status: "inputs refused kind 1",
        ..RECORDED
    },
    Row {
        files: &[("i", SMALLEST), ("n", Content::Sized(SEVEN_BYTES, 14))],
        status: "inputs refused kind 4",
        ..RECORDED
    },
    Row {
        files: &[
            ("i", SMALLEST),
            ("n", Content::Hex("4c494e32 01 00000001 00000007")),
        ],
        status: "inputs refused kind 2",
        ..RECORDED
    },
    Row {
        files: &[
            ("i", SMALLEST),
            ("n", Content::Hex("4c494e31 01 00010001 00000007")),
        ],
        status: "inputs refused kind 3",
        ..RECORDED
    },
    Row {
        files: &[("i", SMALLEST), ("n", TWO_LISTS)],
        status: "wrong inputs: 1 2",
        ..RECORDED
    },
    Row {
        files: &[("i", SMALLEST), ("n", Content::Sized("", 8_388_609))],
        status: "too long: 8388609",
        ..RECORDED
    },
    Row {
        files: &[("i", Content::Sized("4c494d", 21))],
        status: "image refused kind 2 thread 0 at 0",
        ..RECORDED
    },
];

// Each call of the store that fails, and a name that is not there.
pub static FAULTS: [Row; 3] = [
    Row {
        words: "run i 100 100 100 n",
        files: &[("i", TAKER), ("n", SEVEN)],
        calls: &[2],
        status: "store fault",
        ..DONE
    },
    Row {
        words: "run i 100 100 100 n",
        files: &[("i", TAKER), ("n", SEVEN)],
        calls: &[3],
        text: SEVEN_TEXT,
        ..DONE
    },
    Row {
        words: "run i 100 100 100 n",
        files: &[("i", TAKER)],
        status: "store fault",
        ..DONE
    },
];
