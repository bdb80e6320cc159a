// `check`: orders that respect a log, the first faults of orders that do not, and files that are no log or no schedule.
use super::contents::Content;
use super::histories::{
    BOTH_LATE_LOG, DEAD_END_LOG, EXCHANGES_LOG, FIRST_EXCHANGE_LOG, FIVE_THREADS_LOG,
    HIDDEN_STORE_LOG, INITIAL_FIRST_LOG, INITIAL_SECOND_LOG, INITIAL_VALUE_LOG, LAST_EXCHANGE_LOG,
    LAST_NOBODY_LOG, LOST_UPDATE_LOG, MESSAGE_LOG, NEVER_OVER_LOG, OWN_SOURCE_LOG, REPLACED_LOG,
    ROUND_LOG, TWO_LOADS_LOG, TWO_READERS_LOG, TWO_WORDS_LOG, TWO_WRITES_LOG, WORD_ONE_LOG,
};
use super::logs::{OLD_LOG, READS_ROUND_LOG};
use super::recordings::{NO_STEPS_LOG, OWN_WRITE_READ_BYTES, OWN_WRITE_READ_LOG, SMALLEST_LOG};
use super::rows::{DONE, Row, call, holds, store_of};
use std::alloc::Global;
use std::process::Abort;
use std::test::Fail;
use std::thread::Threads;

// A log, and an order of its events that respects it.
pub static RESPECTED: [(Content, &str); 22] = [
    (SMALLEST_LOG, ""),
    (NO_STEPS_LOG, ""),
    (OWN_WRITE_READ_LOG, "0:1 0:2"),
    (INITIAL_VALUE_LOG, "0:1 1:1"),
    (LOST_UPDATE_LOG, "0:1 1:1 1:2"),
    (LOST_UPDATE_LOG, "1:1 0:1 1:2"),
    (MESSAGE_LOG, "0:1 1:1 1:2 0:2 1:3 1:4"),
    (MESSAGE_LOG, "1:1 1:2 0:1 0:2 1:3 1:4"),
    (READS_ROUND_LOG, "0:1 0:2 0:3"),
    (EXCHANGES_LOG, "0:1 1:1 2:1"),
    (TWO_WRITES_LOG, "0:1 1:1 0:2 1:2"),
    (TWO_READERS_LOG, "0:1 2:1 1:1 0:2 2:2 1:2"),
    (REPLACED_LOG, "0:1 3:1 1:1 1:2 2:1"),
    (LAST_EXCHANGE_LOG, "0:1 2:1 1:1"),
    (FIRST_EXCHANGE_LOG, "1:1 0:1"),
    (INITIAL_FIRST_LOG, "1:1 0:1 1:2"),
    (INITIAL_SECOND_LOG, "2:1 1:1 0:1"),
    (TWO_WORDS_LOG, "0:1 0:2 1:1 1:2"),
    (WORD_ONE_LOG, "0:1 1:1 0:2 1:2"),
    (HIDDEN_STORE_LOG, "0:1 0:3 1:1 1:2 1:3"),
    (TWO_LOADS_LOG, "1:1 0:1"),
    (
        FIVE_THREADS_LOG,
        "0:1 2:1 2:2 0:2 3:1 3:2 1:1 0:3 1:2 1:3 3:3 3:4 4:1 4:2 4:3",
    ),
];

// A log, an order that does not respect it, and the order's first fault: its kind and its two numbers.
pub static FAULTS: [(Content, &str, u8, u32, u32); 47] = [
    // No event of the log
    (OWN_WRITE_READ_LOG, "0:1 0:3 0:2", 1, 1, 0),
    (OWN_WRITE_READ_LOG, "1:1 0:3", 1, 0, 0),
    (LOST_UPDATE_LOG, "0:1 1:1 0:2 1:2", 1, 2, 0),
    (MESSAGE_LOG, "0:1 0:1 1:1 14:268435455", 1, 3, 0),
    (NO_STEPS_LOG, "0:1", 1, 0, 0),
    // An event that an earlier position has
    (OWN_WRITE_READ_LOG, "0:1 0:2 0:2", 2, 2, 0),
    (OWN_WRITE_READ_LOG, "0:1 0:1", 2, 1, 0),
    (MESSAGE_LOG, "1:4 0:1 0:1 1:4 1:1 1:2", 2, 2, 0),
    // An event that is nowhere
    (OWN_WRITE_READ_LOG, "0:1", 3, 1, 0),
    (OWN_WRITE_READ_LOG, "", 3, 0, 0),
    (MESSAGE_LOG, "0:1 0:2 1:2 1:3 1:4", 3, 2, 0),
    (MESSAGE_LOG, "1:3 1:2 0:1 1:1", 3, 1, 0),
    (EXCHANGES_LOG, "0:1 1:1", 3, 2, 0),
    // An event after one of its thread with a greater number
    (OWN_WRITE_READ_LOG, "0:2 0:1", 4, 0, 1),
    (MESSAGE_LOG, "1:1 1:3 0:1 0:2 1:2 1:4", 4, 1, 4),
    (MESSAGE_LOG, "1:2 0:2 1:1 0:1 1:3 1:4", 4, 0, 2),
    (TWO_WRITES_LOG, "1:1 0:2 1:2 0:1", 4, 1, 3),
    // A read that comes before its source
    (MESSAGE_LOG, "1:1 1:2 1:3 0:1 0:2 1:4", 5, 1, 0),
    (MESSAGE_LOG, "1:1 1:2 1:3 1:4 0:1 0:2", 5, 1, 0),
    (EXCHANGES_LOG, "0:1 2:1 1:1", 5, 2, 0),
    (EXCHANGES_LOG, "1:1 0:1 2:1", 5, 1, 0),
    (REPLACED_LOG, "0:1 2:1 1:1 1:2 3:1", 5, 1, 0),
    (ROUND_LOG, "0:1 0:2 1:1 1:2", 5, 0, 0),
    (ROUND_LOG, "1:1 1:2 0:1 0:2", 5, 1, 0),
    (OWN_SOURCE_LOG, "0:1", 5, 0, 0),
    // Of two sources of a word each is read after the other was written
    (MESSAGE_LOG, "0:1 0:2 1:1 1:2 1:3 1:4", 6, 0, 1),
    (MESSAGE_LOG, "0:1 1:1 0:2 1:2 1:3 1:4", 6, 0, 1),
    (TWO_WRITES_LOG, "0:1 0:2 1:1 1:2", 6, 0, 1),
    (TWO_READERS_LOG, "0:1 1:1 0:2 2:1 1:2 2:2", 6, 1, 2),
    (TWO_READERS_LOG, "0:1 2:1 0:2 1:1 2:2 1:2", 6, 0, 1),
    (REPLACED_LOG, "0:1 1:1 1:2 2:1 3:1", 6, 1, 2),
    (INITIAL_FIRST_LOG, "0:1 1:1 1:2", 6, 0, 1),
    (INITIAL_SECOND_LOG, "1:1 0:1 2:1", 6, 0, 1),
    (
        FIVE_THREADS_LOG,
        "0:1 0:2 2:1 2:2 1:1 1:2 0:3 1:3 3:1 3:2 3:3 3:4 4:1 4:2 4:3",
        6,
        0,
        3,
    ),
    (DEAD_END_LOG, "0:1 0:2 0:3 1:2", 6, 0, 1),
    // A read after the last write of its word
    (INITIAL_VALUE_LOG, "1:1 0:1", 7, 0, 0),
    (LOST_UPDATE_LOG, "1:1 1:2 0:1", 7, 0, 0),
    (LAST_EXCHANGE_LOG, "0:1 1:1 2:1", 7, 0, 1),
    (TWO_WORDS_LOG, "1:1 1:2 0:1 0:2", 7, 0, 1),
    (TWO_WORDS_LOG, "1:1 0:1 0:2 1:2", 7, 0, 1),
    (WORD_ONE_LOG, "0:1 1:1 1:2 0:2", 7, 1, 1),
    (WORD_ONE_LOG, "1:1 0:1 0:2 1:2", 7, 0, 0),
    (BOTH_LATE_LOG, "0:1 2:1 1:1", 7, 0, 0),
    (BOTH_LATE_LOG, "1:1 0:1 2:1", 7, 0, 1),
    (NEVER_OVER_LOG, "0:1 0:2", 7, 0, 0),
    (LAST_NOBODY_LOG, "0:1 0:2", 7, 0, 0),
    (DEAD_END_LOG, "0:1 1:2 0:2 0:3", 7, 0, 0),
];

// The order of the thread that reads what it wrote.
const OWN_ORDER: Content = Content::Order("0:1 0:2");

const OWN_ORDER_BYTES: &str = "4c534331 00000002 10000001 10000002";

// What a row of this table need not tell.
const CHECKED: Row = Row {
    words: "check l s",
    ..DONE
};

// Bytes that are no schedule.
pub static REFUSED: [Row; 13] = [
    // A schedule that ends too early
    Row {
        files: &[
            ("l", OWN_WRITE_READ_LOG),
            ("s", Content::Sized(OWN_ORDER_BYTES, 0)),
        ],
        status: "schedule refused kind 1 at 0",
        ..CHECKED
    },
    Row {
        files: &[
            ("l", OWN_WRITE_READ_LOG),
            ("s", Content::Sized(OWN_ORDER_BYTES, 7)),
        ],
        status: "schedule refused kind 1 at 7",
        ..CHECKED
    },
    Row {
        files: &[
            ("l", OWN_WRITE_READ_LOG),
            ("s", Content::Sized(OWN_ORDER_BYTES, 8)),
        ],
        status: "schedule refused kind 1 at 8",
        ..CHECKED
    },
    Row {
        files: &[
            ("l", OWN_WRITE_READ_LOG),
            ("s", Content::Sized(OWN_ORDER_BYTES, 12)),
        ],
        status: "schedule refused kind 1 at 12",
        ..CHECKED
    },
    Row {
        files: &[
            ("l", OWN_WRITE_READ_LOG),
            ("s", Content::Sized(OWN_ORDER_BYTES, 15)),
        ],
        status: "schedule refused kind 1 at 15",
        ..CHECKED
    },
    Row {
        files: &[
            ("l", OWN_WRITE_READ_LOG),
            ("s", Content::Hex("4c534331 ffffffff 10000001")),
        ],
        status: "schedule refused kind 1 at 12",
        ..CHECKED
    },
    // Other first bytes
    Row {
        files: &[
            ("l", OWN_WRITE_READ_LOG),
            ("s", Content::Hex("00534331 00000002 10000001 10000002")),
        ],
        status: "schedule refused kind 2 at 0",
        ..CHECKED
    },
    Row {
        files: &[
            ("l", OWN_WRITE_READ_LOG),
            ("s", Content::Hex("4c534332 00000002 10000001")),
        ],
        status: "schedule refused kind 2 at 0",
        ..CHECKED
    },
    // A number without a thread, or without a step
    Row {
        files: &[
            ("l", OWN_WRITE_READ_LOG),
            ("s", Content::Hex("4c534331 00000001 00000001")),
        ],
        status: "schedule refused kind 3 at 0",
        ..CHECKED
    },
    Row {
        files: &[
            ("l", OWN_WRITE_READ_LOG),
            ("s", Content::Hex("4c534331 00000002 10000001 20000000")),
        ],
        status: "schedule refused kind 3 at 1",
        ..CHECKED
    },
    Row {
        files: &[
            ("l", OWN_WRITE_READ_LOG),
            (
                "s",
                Content::Hex("4c534331 00000003 10000001 0fffffff 00000000 00"),
            ),
        ],
        status: "schedule refused kind 3 at 1",
        ..CHECKED
    },
    // Bytes after the last event
    Row {
        files: &[
            ("l", OWN_WRITE_READ_LOG),
            ("s", Content::Hex("4c534331 00000000 00")),
        ],
        status: "schedule refused kind 4 at 8",
        ..CHECKED
    },
    Row {
        files: &[
            ("l", OWN_WRITE_READ_LOG),
            ("s", Content::Sized(OWN_ORDER_BYTES, 17)),
        ],
        status: "schedule refused kind 4 at 16",
        ..CHECKED
    },
];

// What else stands in the way: the log is loaded and read first.
pub static STOPPED: [Row; 15] = [
    // Both under one name
    Row {
        words: "check l l",
        files: &[("l", OWN_WRITE_READ_LOG)],
        status: "schedule refused kind 2 at 0",
        ..CHECKED
    },
    // The log is read first
    Row {
        files: &[("l", Content::Sized(OWN_WRITE_READ_BYTES, 89))],
        status: "log refused kind 1 at 89",
        ..CHECKED
    },
    // The log is read first
    Row {
        files: &[
            ("l", Content::Sized(OWN_WRITE_READ_BYTES, 91)),
            ("s", Content::Text("no schedule")),
        ],
        status: "log refused kind 11 at 90",
        ..CHECKED
    },
    // A log of version 1
    Row {
        files: &[("l", OLD_LOG), ("s", OWN_ORDER)],
        status: "log refused kind 2 at 0",
        ..CHECKED
    },
    // A schedule in the place of the log
    Row {
        files: &[("l", OWN_ORDER), ("s", OWN_ORDER)],
        status: "log refused kind 1 at 16",
        ..CHECKED
    },
    // No log
    Row {
        files: &[("s", OWN_ORDER)],
        status: "store fault",
        ..CHECKED
    },
    // No schedule
    Row {
        files: &[("l", OWN_WRITE_READ_LOG)],
        status: "store fault",
        ..CHECKED
    },
    // A log that is too long
    Row {
        files: &[
            ("l", Content::Sized(OWN_WRITE_READ_BYTES, 8_388_609)),
            ("s", OWN_ORDER),
        ],
        status: "too long: 8388609",
        ..CHECKED
    },
    // A schedule that is too long
    Row {
        files: &[
            ("l", OWN_WRITE_READ_LOG),
            ("s", Content::Sized(OWN_ORDER_BYTES, 8_388_609)),
        ],
        status: "too long: 8388609",
        ..CHECKED
    },
    // The longest schedule that is loaded
    Row {
        files: &[
            ("l", OWN_WRITE_READ_LOG),
            ("s", Content::Sized(OWN_ORDER_BYTES, 8_388_608)),
        ],
        status: "schedule refused kind 4 at 16",
        ..CHECKED
    },
    // Call 1 of the store fails
    Row {
        files: &[("l", OWN_WRITE_READ_LOG), ("s", OWN_ORDER)],
        calls: &[1],
        status: "store fault",
        ..CHECKED
    },
    // Call 2 of the store fails
    Row {
        files: &[("l", OWN_WRITE_READ_LOG), ("s", OWN_ORDER)],
        calls: &[2],
        status: "store fault",
        ..CHECKED
    },
    // There are no more calls
    Row {
        files: &[("l", OWN_WRITE_READ_LOG), ("s", OWN_ORDER)],
        calls: &[3],
        text: Content::Text("respects/"),
        ..CHECKED
    },
    // The second put fails
    Row {
        files: &[("l", OWN_WRITE_READ_LOG), ("s", OWN_ORDER)],
        puts: &[2],
        status: "output fault",
        text: Content::Text("respe"),
        ..CHECKED
    },
    // Of an order that does not respect the log nothing is put
    Row {
        files: &[("l", OWN_WRITE_READ_LOG), ("s", Content::Order("0:2 0:1"))],
        puts: &[1],
        status: "order refused kind 4 at 0 1",
        ..CHECKED
    },
];

// Checks an order. The files stay, and only of an order that respects the log is something printed.
pub fn judge<R: Abort + Threads + Sync>(
    rt: &R,
    alloc: Global,
    log: Content,
    order: &'static str,
    status: &str,
) -> Result<(), Fail> {
    let mut store = store_of(alloc, &[("l", log), ("s", Content::Order(order))])?;
    let (found, text) = call(rt, alloc, &mut store, "check l s")?;
    assert_eq!(rt; found.as_str(), status, "{order}");
    let printed = if status.is_empty() {
        b"respects\n".as_slice()
    } else {
        b"".as_slice()
    };
    assert_eq!(rt; text.as_slice(), printed, "{order}");
    assert!(rt; holds(alloc, &store, "l", log)?, "{order}");
    assert!(rt;
        holds(alloc, &store, "s", Content::Order(order))?,
        "{order}"
    );
    Ok(())
}
