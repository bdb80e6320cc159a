// `replay`: the transcript of the recorded history, logs that no runs have, and what stands in the way.
use super::contents::{
    Content, INITIAL_VALUE, LOST_UPDATE, MESSAGE, OWN_WRITE_READ, SMALLEST, SMALLEST_BYTES,
    SMALLEST_TEXT, bytes_of,
};
use super::histories::{
    BLIND_STORES, BLIND_STORES_LOG, CROSSED, CROSSED_LOG, EXCHANGES, EXCHANGES_LOG, FIVE_THREADS,
    FIVE_THREADS_LOG, HIDDEN_STORE, HIDDEN_STORE_LOG, INITIAL_VALUE_LOG, LAST_NOBODY_LOG,
    LAST_READ_LOG, LONGER_ENTRY_LOG, LOST_UPDATE_LOG, MESSAGE_LOG, MORE_THREADS_LOG,
    MORE_WORDS_LOG, ONE_MORE_STEP_LOG, OTHER_WRITER, OTHER_WRITER_LOG, READ_ITSELF_LOG, ROUND_LOG,
    SEVEN_AND_EIGHT_LOG, TWO_LOADS, TWO_LOADS_LOG,
};
use super::inputs::{SEVEN_LOG, SEVEN_TEXT, SEVEN_TO_NINE_LOG, SEVEN_TO_NINE_TEXT, TAKER};
use super::logs::OLD_LOG;
use super::recordings::{
    NO_STEPS_LOG, NO_STEPS_TEXT, OTHER_WRITER_TEXT, OWN_WRITE_READ_BYTES, OWN_WRITE_READ_LOG,
    SMALLEST_LOG,
};
use super::rows::{DONE, Row, call, holds, store_of};
use std::alloc::{AllocError, Global};
use std::process::Abort;
use std::test::Fail;
use std::thread::Threads;

const OWN_TEXT: Content = Content::Text("thread 0 halted steps 2 instr 4/out 7/word 0 7/");

// A program, a log of a history of it, and the transcript of the history.
pub static REPLAYED: [(Content, Content, &str, Content); 15] = [
    (SMALLEST, SMALLEST_LOG, "0", SMALLEST_TEXT),
    (OWN_WRITE_READ, OWN_WRITE_READ_LOG, "0", OWN_TEXT),
    (
        INITIAL_VALUE,
        INITIAL_VALUE_LOG,
        "0",
        Content::Text(
            "thread 0 halted steps 1 instr 2/out 5/thread 1 halted steps 1 instr 2/word 0 9/",
        ),
    ),
    // The store of thread 0, which nobody saw, is left out.
    (
        LOST_UPDATE,
        LOST_UPDATE_LOG,
        "0",
        Content::Text(
            "thread 0 halted steps 2 instr 4/out 1/thread 1 halted steps 2 instr 4/out 1/word 0 1/",
        ),
    ),
    (
        MESSAGE,
        MESSAGE_LOG,
        "0",
        Content::Text(
            "thread 0 halted steps 2 instr 4/thread 1 halted steps 4 instr 8/out 42/word 0 42/word 1 1/",
        ),
    ),
    (
        EXCHANGES,
        EXCHANGES_LOG,
        "0",
        Content::Text(
            "thread 0 halted steps 1 instr 3/out 0/thread 1 halted steps 1 instr 3/out 1/thread 2 halted steps 1 instr 3/out 2/word 0 3/",
        ),
    ),
    // The store of thread 2 is left out, and that of thread 1 is not, though nobody read it.
    (
        BLIND_STORES,
        BLIND_STORES_LOG,
        "0",
        Content::Text(
            "thread 0 halted steps 1 instr 2/out 0/thread 1 halted steps 1 instr 2/thread 2 halted steps 1 instr 2/word 0 5/",
        ),
    ),
    (OTHER_WRITER, OTHER_WRITER_LOG, "0", OTHER_WRITER_TEXT),
    (LOST_UPDATE, NO_STEPS_LOG, "0", NO_STEPS_TEXT),
    (TAKER, SEVEN_LOG, "0", SEVEN_TEXT),
    (TAKER, SEVEN_TO_NINE_LOG, "0", SEVEN_TO_NINE_TEXT),
    // No history has this log, but runs of the threads have it.
    (
        HIDDEN_STORE,
        HIDDEN_STORE_LOG,
        "0",
        Content::Text(
            "thread 0 halted steps 3 instr 6/thread 1 halted steps 3 instr 6/out 3/out 1/word 0 9/word 1 3/",
        ),
    ),
    // The plain search has two dead ends.
    (FIVE_THREADS, FIVE_THREADS_LOG, "2", FIVE_THREADS_TEXT),
    (
        FIVE_THREADS,
        FIVE_THREADS_LOG,
        "4294967295",
        FIVE_THREADS_TEXT,
    ),
    (OWN_WRITE_READ, OWN_WRITE_READ_LOG, "4294967295", OWN_TEXT),
];

const FIVE_THREADS_TEXT: Content = Content::Text(
    "thread 0 halted steps 3 instr 6/out 3/thread 1 halted steps 3 instr 5/out 3/thread 2 halted steps 2 instr 4/out 1/thread 3 halted steps 4 instr 8/out 4/out 2/out 5/thread 4 halted steps 3 instr 4/word 0 6/word 1 6/word 2 6/",
);

const OWN_ORDER_BYTES: &str = "4c534331 00000002 10000001 10000002";

const OWN_ORDER: Content = Content::Hex(OWN_ORDER_BYTES);

// Nothing is saved.
const STAYED: Row = Row {
    words: "replay i l s 0",
    after: &[("s", Content::Absent)],
    ..DONE
};

const OWN_FILES: &[(&str, Content)] = &[("i", OWN_WRITE_READ), ("l", OWN_WRITE_READ_LOG)];

// A program, and a log that no runs of it have: what is logged, and what is found under every order that respects the log.
pub static DIFFERENT: [Row; 5] = [
    Row {
        files: &[("i", TWO_LOADS), ("l", TWO_LOADS_LOG)],
        status: "differs thread 0 entry 0: entry 0 1:1 1 1, not entry 0 initial 1 1",
        ..STAYED
    },
    Row {
        files: &[("i", OWN_WRITE_READ), ("l", LAST_READ_LOG)],
        status: "differs thread 1 entry 0: last 0:2, not last 0:1",
        ..STAYED
    },
    Row {
        files: &[("i", OWN_WRITE_READ), ("l", ONE_MORE_STEP_LOG)],
        status: "differs thread 0 entry 1: tail 3 4 Halted 0, not tail 2 4 Halted 0",
        ..STAYED
    },
    Row {
        files: &[("i", OWN_WRITE_READ), ("l", LONGER_ENTRY_LOG)],
        status: "differs thread 0 entry 0: entry 0 0:1 2 3, not entry 0 0:1 2 2",
        ..STAYED
    },
    Row {
        files: &[("i", TAKER), ("l", SEVEN_AND_EIGHT_LOG)],
        status: "differs thread 0 entry 0: tail 0 2 InputEmpty 2, not tail 0 4 Halted 2",
        ..STAYED
    },
];

// A program, and the log of another one: their prints, that of the log first. That no order respects a log is told only where it
// is the program's.
pub static OTHER_PROGRAM: [Row; 4] = [
    Row {
        files: &[("i", SMALLEST), ("l", OWN_WRITE_READ_LOG)],
        status: "wrong program: b4ccf6448bc45676a64744e28389f90c21d30e4190e9c413417dc0164e6fc1e5 1 1, not 03c0797a3fa7c306a00ed5c26b8fc1a0cdcc1dfd5ace36b9d02276973157950b 1 1",
        ..STAYED
    },
    Row {
        files: &[("i", OWN_WRITE_READ), ("l", MORE_WORDS_LOG)],
        status: "wrong program: b4ccf6448bc45676a64744e28389f90c21d30e4190e9c413417dc0164e6fc1e5 2 1, not b4ccf6448bc45676a64744e28389f90c21d30e4190e9c413417dc0164e6fc1e5 1 1",
        ..STAYED
    },
    Row {
        files: &[("i", OWN_WRITE_READ), ("l", MORE_THREADS_LOG)],
        status: "wrong program: b4ccf6448bc45676a64744e28389f90c21d30e4190e9c413417dc0164e6fc1e5 1 2, not b4ccf6448bc45676a64744e28389f90c21d30e4190e9c413417dc0164e6fc1e5 1 1",
        ..STAYED
    },
    Row {
        files: &[("i", OWN_WRITE_READ), ("l", ROUND_LOG)],
        status: "wrong program: 0000000000000000000000000000000000000000000000000000000000000000 2 2, not b4ccf6448bc45676a64744e28389f90c21d30e4190e9c413417dc0164e6fc1e5 1 1",
        ..STAYED
    },
];

// What stands in the way: the image is loaded and read before the log. A save that fails leaves the first half; where a put fails
// the schedule is whole.
pub static STOPPED: [Row; 20] = [
    // The search meets a dead end with something to go back to, and then one with nothing.
    Row {
        files: &[("i", CROSSED), ("l", CROSSED_LOG)],
        status: "budget spent",
        ..STAYED
    },
    Row {
        words: "replay i l s 1",
        files: &[("i", CROSSED), ("l", CROSSED_LOG)],
        status: "no schedule",
        ..STAYED
    },
    Row {
        files: &[("i", OWN_WRITE_READ), ("l", LAST_NOBODY_LOG)],
        status: "no schedule",
        ..STAYED
    },
    Row {
        files: &[("i", OWN_WRITE_READ), ("l", READ_ITSELF_LOG)],
        status: "no schedule",
        ..STAYED
    },
    Row {
        files: &[("i", Content::Sized(SMALLEST_BYTES, 20))],
        status: "image refused kind 1 thread 0 at 0",
        ..STAYED
    },
    Row {
        files: &[("i", OWN_WRITE_READ_LOG), ("l", Content::Text("no log"))],
        status: "image refused kind 2 thread 0 at 0",
        ..STAYED
    },
    Row {
        files: &[
            ("i", SMALLEST),
            ("l", Content::Sized(OWN_WRITE_READ_BYTES, 89)),
        ],
        status: "log refused kind 1 at 89",
        ..STAYED
    },
    Row {
        files: &[("i", OWN_WRITE_READ), ("l", OLD_LOG)],
        status: "log refused kind 2 at 0",
        ..STAYED
    },
    Row {
        files: &[("l", OWN_WRITE_READ_LOG)],
        status: "store fault",
        ..STAYED
    },
    Row {
        files: &[("i", OWN_WRITE_READ)],
        status: "store fault",
        ..STAYED
    },
    Row {
        files: &[
            ("i", Content::Sized(SMALLEST_BYTES, 8_388_609)),
            ("l", OWN_WRITE_READ_LOG),
        ],
        status: "too long: 8388609",
        ..STAYED
    },
    Row {
        files: &[
            ("i", OWN_WRITE_READ),
            ("l", Content::Sized(OWN_WRITE_READ_BYTES, 8_388_609)),
        ],
        status: "too long: 8388609",
        ..STAYED
    },
    Row {
        files: OWN_FILES,
        calls: &[1],
        status: "store fault",
        ..STAYED
    },
    Row {
        files: OWN_FILES,
        calls: &[2],
        status: "store fault",
        ..STAYED
    },
    Row {
        files: OWN_FILES,
        calls: &[3],
        status: "store fault",
        after: &[("s", Content::Sized(OWN_ORDER_BYTES, 8))],
        ..STAYED
    },
    Row {
        files: OWN_FILES,
        calls: &[4],
        text: OWN_TEXT,
        after: &[("s", OWN_ORDER)],
        ..STAYED
    },
    Row {
        files: OWN_FILES,
        puts: &[2],
        status: "output fault",
        text: Content::Text("threa"),
        after: &[("s", OWN_ORDER)],
        ..STAYED
    },
    // Nothing is saved and nothing put before the end is known.
    Row {
        files: &[("i", OWN_WRITE_READ), ("l", LAST_NOBODY_LOG)],
        calls: &[3],
        puts: &[1],
        status: "no schedule",
        ..STAYED
    },
    // The schedule may take the place of the log, or of the image.
    Row {
        words: "replay i l l 0",
        files: OWN_FILES,
        text: OWN_TEXT,
        after: &[("l", OWN_ORDER)],
        ..DONE
    },
    Row {
        words: "replay i l i 0",
        files: OWN_FILES,
        text: OWN_TEXT,
        after: &[("i", OWN_ORDER)],
        ..DONE
    },
];

// Replays a log: the transcript is printed, and `check` says that the order that is saved respects the log.
pub fn replay<R: Abort + Threads + Sync>(
    rt: &R,
    alloc: Global,
    image: Content,
    log: Content,
    budget: &str,
    transcript: Content,
) -> Result<(), Fail> {
    let line = format!(in alloc; "replay i l s {budget}")?;
    let mut store = store_of(alloc, &[("i", image), ("l", log)])?;
    let (status, text) = call(rt, alloc, &mut store, line.as_str())?;
    assert!(rt; status.is_empty(), "{status}");
    assert_eq!(rt; text.as_slice(), bytes_of(alloc, transcript)?.as_slice());
    assert!(rt; holds(alloc, &store, "i", image)?);
    assert!(rt; holds(alloc, &store, "l", log)?);
    let (status, text) = call(rt, alloc, &mut store, "check l s")?;
    assert!(rt; status.is_empty(), "{status}");
    assert_eq!(rt; text.as_slice(), b"respects\n".as_slice());
    Ok(())
}
