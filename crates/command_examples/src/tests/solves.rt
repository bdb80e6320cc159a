// `solve`: the order that is saved respects the log, as `check` says; logs that no order respects; and what stands in the way.
use super::contents::Content;
use super::histories::{
    BLIND_STORES_LOG, BOTH_LATE_LOG, CROSSED_LOG, DEAD_END_LOG, EXCHANGES_LOG, FIRST_EXCHANGE_LOG,
    FIVE_THREADS_LOG, HIDDEN_STORE_LOG, INITIAL_FIRST_LOG, INITIAL_SECOND_LOG, INITIAL_VALUE_LOG,
    LAST_EXCHANGE_LOG, LAST_NOBODY_LOG, LOST_UPDATE_LOG, MESSAGE_LOG, NEVER_OVER_LOG,
    OTHER_WRITER_LOG, OWN_SOURCE_LOG, READ_ITSELF_LOG, REPLACED_LOG, ROUND_LOG, TWO_DEAD_ENDS_LOG,
    TWO_LOADS_LOG, TWO_READERS_LOG, TWO_WORDS_LOG, TWO_WRITES_LOG, WORD_ONE_LOG,
};
use super::logs::{OLD_LOG, READS_ROUND_LOG};
use super::recordings::{NO_STEPS_LOG, OWN_WRITE_READ_BYTES, OWN_WRITE_READ_LOG, SMALLEST_LOG};
use super::rows::{DONE, Row, call, holds, store_of};
use std::alloc::Global;
use std::process::Abort;
use std::test::Fail;
use std::thread::Threads;

// The statuses that are right. Where the plain search has more dead ends than the budget, one says that the budget is spent.
const FOUND: &[&str] = &[""];

const FOUND_OR_SPENT: &[&str] = &["", "budget spent"];

const NONE: &[&str] = &["no schedule"];

const SPENT: &[&str] = &["budget spent"];

// A log, the number of its events, the budget, and the right answers.
pub static SOLVED: [(Content, u32, &str, &[&str]); 43] = [
    // The plain search finds an order with no dead end.
    (SMALLEST_LOG, 0, "0", FOUND),
    (NO_STEPS_LOG, 0, "0", FOUND),
    (OWN_WRITE_READ_LOG, 2, "0", FOUND),
    (OWN_WRITE_READ_LOG, 2, "4294967295", FOUND),
    (INITIAL_VALUE_LOG, 2, "0", FOUND),
    (LOST_UPDATE_LOG, 3, "0", FOUND),
    (MESSAGE_LOG, 6, "0", FOUND),
    (READS_ROUND_LOG, 3, "0", FOUND),
    (EXCHANGES_LOG, 3, "0", FOUND),
    (BLIND_STORES_LOG, 2, "0", FOUND),
    (OTHER_WRITER_LOG, 3, "0", FOUND),
    (HIDDEN_STORE_LOG, 5, "0", FOUND),
    (TWO_LOADS_LOG, 2, "0", FOUND),
    (TWO_WRITES_LOG, 4, "0", FOUND),
    (TWO_READERS_LOG, 6, "0", FOUND),
    (REPLACED_LOG, 5, "0", FOUND),
    (LAST_EXCHANGE_LOG, 3, "0", FOUND),
    (FIRST_EXCHANGE_LOG, 2, "0", FOUND),
    (INITIAL_FIRST_LOG, 3, "0", FOUND),
    (INITIAL_SECOND_LOG, 3, "0", FOUND),
    (TWO_WORDS_LOG, 4, "0", FOUND),
    (WORD_ONE_LOG, 4, "0", FOUND),
    (BOTH_LATE_LOG, 3, "0", FOUND),
    // It finds one after two dead ends.
    (FIVE_THREADS_LOG, 15, "4294967295", FOUND),
    (FIVE_THREADS_LOG, 15, "2", FOUND),
    (FIVE_THREADS_LOG, 15, "1", FOUND_OR_SPENT),
    (FIVE_THREADS_LOG, 15, "0", FOUND_OR_SPENT),
    // Steps would come before each other in a circle, or before themselves.
    (ROUND_LOG, 4, "0", NONE),
    (ROUND_LOG, 4, "1", NONE),
    (ROUND_LOG, 4, "4294967295", NONE),
    (OWN_SOURCE_LOG, 1, "0", NONE),
    (READ_ITSELF_LOG, 2, "0", NONE),
    // Nobody wrote last, and still somebody read a write.
    (NEVER_OVER_LOG, 2, "0", NONE),
    (LAST_NOBODY_LOG, 2, "0", NONE),
    // Whichever write comes first, there is a circle. The plain search has one dead end, or two; there is nothing to go back to,
    // so no budget is needed.
    (DEAD_END_LOG, 4, "4294967295", NONE),
    (DEAD_END_LOG, 4, "1", NONE),
    (DEAD_END_LOG, 4, "0", NONE),
    (TWO_DEAD_ENDS_LOG, 6, "2", NONE),
    (TWO_DEAD_ENDS_LOG, 6, "1", NONE),
    (TWO_DEAD_ENDS_LOG, 6, "0", NONE),
    // A choice is tried, and leads to a dead end; the other one leads to one with nothing to go back to.
    (CROSSED_LOG, 18, "0", SPENT),
    (CROSSED_LOG, 18, "1", NONE),
    (CROSSED_LOG, 18, "4294967295", NONE),
];

const OWN_ORDER_BYTES: &str = "4c534331 00000002 10000001 10000002";

// Logs that one order alone respects.
pub static ONLY: [Row; 5] = [
    Row {
        words: "solve l s 0",
        files: &[("l", OWN_WRITE_READ_LOG)],
        text: Content::Text("events 2/"),
        after: &[("s", Content::Hex(OWN_ORDER_BYTES))],
        ..DONE
    },
    Row {
        words: "solve l s 0",
        files: &[("l", SMALLEST_LOG), ("s", Content::Text("before"))],
        text: Content::Text("events 0/"),
        after: &[("s", Content::Hex("4c534331 00000000"))],
        ..DONE
    },
    Row {
        words: "solve l s 0",
        files: &[("l", INITIAL_VALUE_LOG)],
        text: Content::Text("events 2/"),
        after: &[("s", Content::Order("0:1 1:1"))],
        ..DONE
    },
    Row {
        words: "solve l s 0",
        files: &[("l", EXCHANGES_LOG)],
        text: Content::Text("events 3/"),
        after: &[("s", Content::Order("0:1 1:1 2:1"))],
        ..DONE
    },
    // The schedule may take the log's place.
    Row {
        words: "solve l l 0",
        files: &[("l", OWN_WRITE_READ_LOG)],
        text: Content::Text("events 2/"),
        after: &[("l", Content::Hex(OWN_ORDER_BYTES))],
        ..DONE
    },
];

// Nothing is saved.
const UNSOLVED: Row = Row {
    words: "solve l s 0",
    after: &[("s", Content::Absent)],
    ..DONE
};

// What stands in the way. A save that fails leaves the first half; where a put fails the schedule is whole.
pub static STOPPED: [Row; 12] = [
    Row {
        files: &[("l", Content::Sized(OWN_WRITE_READ_BYTES, 71))],
        status: "log refused kind 1 at 71",
        ..UNSOLVED
    },
    Row {
        files: &[("l", OLD_LOG)],
        status: "log refused kind 2 at 0",
        ..UNSOLVED
    },
    Row {
        files: &[],
        status: "store fault",
        ..UNSOLVED
    },
    Row {
        files: &[("l", Content::Sized(OWN_WRITE_READ_BYTES, 8_388_609))],
        status: "too long: 8388609",
        ..UNSOLVED
    },
    Row {
        files: &[("l", OWN_WRITE_READ_LOG)],
        calls: &[1],
        status: "store fault",
        ..UNSOLVED
    },
    Row {
        files: &[("l", OWN_WRITE_READ_LOG)],
        calls: &[2],
        status: "store fault",
        after: &[("s", Content::Sized(OWN_ORDER_BYTES, 8))],
        ..UNSOLVED
    },
    Row {
        files: &[("l", OWN_WRITE_READ_LOG)],
        calls: &[3],
        text: Content::Text("events 2/"),
        after: &[("s", Content::Hex(OWN_ORDER_BYTES))],
        ..UNSOLVED
    },
    Row {
        files: &[("l", OWN_WRITE_READ_LOG)],
        puts: &[1],
        status: "output fault",
        after: &[("s", Content::Hex(OWN_ORDER_BYTES))],
        ..UNSOLVED
    },
    Row {
        files: &[("l", OWN_WRITE_READ_LOG)],
        puts: &[2],
        status: "output fault",
        text: Content::Text("event"),
        after: &[("s", Content::Hex(OWN_ORDER_BYTES))],
        ..UNSOLVED
    },
    // Where there is no order nothing is saved and nothing put.
    Row {
        files: &[("l", ROUND_LOG)],
        calls: &[2],
        puts: &[1],
        status: "no schedule",
        ..UNSOLVED
    },
    Row {
        files: &[("l", ROUND_LOG), ("s", Content::Text("before"))],
        status: "no schedule",
        after: &[],
        ..UNSOLVED
    },
    // A schedule is no log.
    Row {
        files: &[("l", Content::Hex(OWN_ORDER_BYTES))],
        status: "log refused kind 1 at 16",
        ..UNSOLVED
    },
];

// Solves a log. Of an order that is found the number of events is told, and `check` says that it respects the log; else nothing
// is saved and nothing told.
pub fn solve<R: Abort + Threads + Sync>(
    rt: &R,
    alloc: Global,
    log: Content,
    events: u32,
    budget: &str,
    answers: &[&str],
) -> Result<(), Fail> {
    let line = format!(in alloc; "solve l s {budget}")?;
    let mut store = store_of(alloc, &[("l", log)])?;
    let (status, text) = call(rt, alloc, &mut store, line.as_str())?;
    assert!(rt; answers.contains(&status.as_str()), "{status}");
    assert!(rt; holds(alloc, &store, "l", log)?);
    if status.is_empty() {
        let told = format!(in alloc; "events {events}\n")?;
        assert_eq!(rt; text.as_slice(), told.as_bytes());
        let (status, text) = call(rt, alloc, &mut store, "check l s")?;
        assert!(rt; status.is_empty(), "{status}");
        assert_eq!(rt; text.as_slice(), b"respects\n".as_slice());
    } else {
        assert!(rt; text.is_empty());
        assert!(rt; store.file("s").is_none());
    }
    Ok(())
}
