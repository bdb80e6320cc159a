// `audit`: whether a log is that of a whole history of a program at all, and what stands in the way.
use super::contents::{
    Content, INITIAL_VALUE, LOST_UPDATE, MESSAGE, OWN_WRITE_READ, SMALLEST, TWO_FLAGS, bytes_of,
};
use super::histories::{
    BLIND_STORES, BLIND_STORES_LOG, CROSSED, CROSSED_LOG, EXCHANGES, EXCHANGES_LOG, FIVE_THREADS,
    FIVE_THREADS_LOG, HIDDEN_STORE, HIDDEN_STORE_LOG, INITIAL_VALUE_LOG, LAST_NOBODY_LOG,
    LAST_READ_LOG, LOST_UPDATE_LOG, MESSAGE_LOG, ONE_MORE_STEP_LOG, OTHER_WRITER, OTHER_WRITER_LOG,
    TWO_LOADS, TWO_LOADS_LOG,
};
use super::inputs::{SEVEN_TO_NINE_LOG, TAKER};
use super::logs::OLD_LOG;
use super::recordings::{NO_STEPS_LOG, OWN_WRITE_READ_LOG, SMALLEST_LOG};
use super::rows::{DONE, Row, call, store_of};
use arena_samples::arena;
use light_base::MemStore;
use machine::write_image;
use std::alloc::Global;
use std::process::Abort;
use std::test::Fail;
use std::thread::Threads;

// Two threads that halt at once, on two words.
const HALTS: Content = Content::Hex(
    "4c494d31 02 0002 0001 0001 00000000 00000000 0000000000000000 0000000000000000",
);

// The log `ROUND_LOG` with the digest of their image: each reads by its first step what the other writes by its second.
const HALTS_LOG: Content = Content::Hex(
    "4c4c4732 02 0002 fb7c618ac3da0a980975da74ce8082aa0e0fbf3615af0c3bcf176eeec6042b0b 00000064 00000064 00000064 00 00000000 00000002 00000002 00000001 00000000 00 00000000 00000002 00000002 00000001 00000000 20000002 10000002 0000 20000002 00000001 00000001 0001 10000002 00000001 00000001",
);

// A program, a log of a whole history of it, and how many memory steps that has.
pub static LEGAL: [(Content, Content, &str); 11] = [
    (SMALLEST, SMALLEST_LOG, "legal 0/"),
    (OWN_WRITE_READ, OWN_WRITE_READ_LOG, "legal 2/"),
    (INITIAL_VALUE, INITIAL_VALUE_LOG, "legal 2/"),
    (LOST_UPDATE, LOST_UPDATE_LOG, "legal 4/"),
    (MESSAGE, MESSAGE_LOG, "legal 6/"),
    (EXCHANGES, EXCHANGES_LOG, "legal 3/"),
    (BLIND_STORES, BLIND_STORES_LOG, "legal 3/"),
    (OTHER_WRITER, OTHER_WRITER_LOG, "legal 3/"),
    (LOST_UPDATE, NO_STEPS_LOG, "legal 0/"),
    (TAKER, SEVEN_TO_NINE_LOG, "legal 0/"),
    (FIVE_THREADS, FIVE_THREADS_LOG, "legal 15/"),
];

const AUDIT: Row = Row {
    words: "audit i l 4294967295",
    ..DONE
};

// What stands in the way: image and log are loaded, read and compared first.
pub static STOPPED: [Row; 18] = [
    // Runs of the threads have the log, and a replay would say that all is the same; but the store of 2 would come between, and so
    // nobody could have read the 1.
    Row {
        words: "audit i l 1",
        files: &[("i", HIDDEN_STORE), ("l", HIDDEN_STORE_LOG)],
        status: "not legal",
        ..DONE
    },
    // No order respects the log.
    Row {
        files: &[("i", HALTS), ("l", HALTS_LOG)],
        status: "not legal",
        ..AUDIT
    },
    Row {
        files: &[("i", OWN_WRITE_READ), ("l", LAST_NOBODY_LOG)],
        status: "not legal",
        ..AUDIT
    },
    // No runs have it.
    Row {
        files: &[("i", TWO_LOADS), ("l", TWO_LOADS_LOG)],
        status: "not legal",
        ..AUDIT
    },
    Row {
        files: &[("i", OWN_WRITE_READ), ("l", ONE_MORE_STEP_LOG)],
        status: "not legal",
        ..AUDIT
    },
    Row {
        files: &[("i", OWN_WRITE_READ), ("l", LAST_READ_LOG)],
        status: "not legal",
        ..AUDIT
    },
    Row {
        words: "audit i l 0",
        files: &[("i", CROSSED), ("l", CROSSED_LOG)],
        status: "budget spent",
        ..DONE
    },
    Row {
        words: "audit i l 1",
        files: &[("i", CROSSED), ("l", CROSSED_LOG)],
        status: "not legal",
        ..DONE
    },
    Row {
        files: &[("i", SMALLEST), ("l", OWN_WRITE_READ_LOG)],
        status: "wrong program: b4ccf6448bc45676a64744e28389f90c21d30e4190e9c413417dc0164e6fc1e5 1 1, not 03c0797a3fa7c306a00ed5c26b8fc1a0cdcc1dfd5ace36b9d02276973157950b 1 1",
        ..AUDIT
    },
    Row {
        files: &[("i", OWN_WRITE_READ_LOG), ("l", Content::Text("no log"))],
        status: "image refused kind 2 thread 0 at 0",
        ..AUDIT
    },
    Row {
        files: &[("i", OWN_WRITE_READ), ("l", OLD_LOG)],
        status: "log refused kind 2 at 0",
        ..AUDIT
    },
    Row {
        files: &[("l", OWN_WRITE_READ_LOG)],
        status: "store fault",
        ..AUDIT
    },
    Row {
        files: &[("i", OWN_WRITE_READ)],
        status: "store fault",
        ..AUDIT
    },
    Row {
        words: "audit i l",
        files: &[("i", OWN_WRITE_READ), ("l", OWN_WRITE_READ_LOG)],
        status: "usage",
        ..DONE
    },
    Row {
        words: "audit i l 01",
        files: &[("i", OWN_WRITE_READ), ("l", OWN_WRITE_READ_LOG)],
        status: "usage",
        ..DONE
    },
    Row {
        words: "audit i l 0 0",
        files: &[("i", OWN_WRITE_READ), ("l", OWN_WRITE_READ_LOG)],
        status: "usage",
        ..DONE
    },
    Row {
        words: "audit i l 0",
        files: &[("i", OWN_WRITE_READ), ("l", OWN_WRITE_READ_LOG)],
        puts: &[2],
        status: "output fault",
        text: Content::Text("legal"),
        ..DONE
    },
    Row {
        words: "audit i l 0",
        files: &[("i", OWN_WRITE_READ), ("l", OWN_WRITE_READ_LOG)],
        text: Content::Text("legal 2/"),
        ..DONE
    },
];

// Audits a log of a history, with no dead end allowed and with as many as there may be.
pub fn audit<R: Abort + Threads + Sync>(
    rt: &R,
    alloc: Global,
    image: Content,
    log: Content,
    text: &'static str,
) -> Result<(), Fail> {
    for budget in ["0", "4294967295"] {
        let mut store = store_of(alloc, &[("i", image), ("l", log)])?;
        let words = format!(in alloc; "audit i l {budget}")?;
        let (status, told) = call(rt, alloc, &mut store, words.as_str())?;
        assert!(rt; status.is_empty(), "{status}");
        let wanted = bytes_of(alloc, Content::Text(text))?;
        assert!(rt; told.as_slice() == wanted.as_slice(), "{text}");
    }
    Ok(())
}

// What is recorded on threads is legal: an arena, and two threads that wait for each other.
pub fn audit_recorded<R: Abort + Threads + Sync>(rt: &R, alloc: Global) -> Result<(), Fail> {
    let flags = bytes_of(alloc, TWO_FLAGS)?;
    for image in [write_image(alloc, &arena(alloc, 7)?)?, flags] {
        let mut store = MemStore::new(alloc, Vec::new(alloc));
        store.put_file("i", &image)?;
        let (status, _) = call(rt, alloc, &mut store, "record i l 1000000 10000000 16384")?;
        assert!(rt; status.is_empty(), "{status}");
        let (status, told) = call(rt, alloc, &mut store, "audit i l 4294967295")?;
        assert!(rt; status.is_empty(), "{status}");
        assert!(rt; told.as_slice().starts_with(b"legal "));
    }
    Ok(())
}
