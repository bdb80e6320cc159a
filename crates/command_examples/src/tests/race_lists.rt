// `races`: how many pairs of writes a log leaves open, forces and makes stuck, and the first open ones; and what stands in the way.
use super::contents::Content;
use super::histories::{
    CROSSED_LOG, DEAD_END_LOG, EXCHANGES_LOG, FIVE_THREADS_LOG, LOST_UPDATE_LOG, TWO_DEAD_ENDS_LOG,
    TWO_READERS_LOG,
};
use super::logs::OLD_LOG;
use super::recordings::OWN_WRITE_READ_LOG;
use super::rows::{DONE, Row, call};
use light_base::{MemStore, put_decimal, put_u16, put_u32};
use std::alloc::Global;
use std::process::Abort;
use std::test::Fail;
use std::thread::Threads;

const RACES: Row = Row {
    words: "races l",
    ..DONE
};

// Thread 0 reads by its first step what its second one wrote, `0 0:2 1 1`, and thread 1 reads what it wrote, `0 1:1 2 2`.
const CYCLE_LOG: Content = Content::Hex(
    "4c4c4732 02 0001 0000000000000000000000000000000000000000000000000000000000000000 00000064 00000064 00000064 00 00000000 00000002 00000002 00000001 00000000 00 00000000 00000002 00000002 00000001 00000000 20000001 0000 10000002 00000001 00000001 0000 20000001 00000002 00000002",
);

// Each of two threads reads what it wrote, and nobody is said to have written the word.
const INITIAL_LAST_LOG: Content = Content::Hex(
    "4c4c4732 02 0001 0000000000000000000000000000000000000000000000000000000000000000 00000064 00000064 00000064 00 00000000 00000002 00000002 00000001 00000000 00 00000000 00000002 00000002 00000001 00000000 00000000 0000 10000001 00000002 00000002 0000 20000001 00000002 00000002",
);

// Logs and what is printed of them.
pub static LISTED: [Row; 10] = [
    // Nobody saw two writes of a word.
    Row {
        files: &[("l", OWN_WRITE_READ_LOG)],
        text: Content::Text("pairs 0 open 0 forced 0 stuck 0/"),
        ..RACES
    },
    Row {
        files: &[("l", LOST_UPDATE_LOG)],
        text: Content::Text("pairs 0 open 0 forced 0 stuck 0/"),
        ..RACES
    },
    Row {
        files: &[("l", FIVE_THREADS_LOG)],
        text: Content::Text("pairs 3 open 2 forced 1 stuck 0/pair 0 1:1 2:1/pair 1 1:2 3:3/"),
        ..RACES
    },
    Row {
        files: &[("l", CROSSED_LOG)],
        text: Content::Text("pairs 2 open 2 forced 0 stuck 0/pair 0 0:1 1:1/pair 1 2:1 3:1/"),
        ..RACES
    },
    // One write was exchanged for the other.
    Row {
        files: &[("l", EXCHANGES_LOG)],
        text: Content::Text("pairs 1 open 0 forced 1 stuck 0/"),
        ..RACES
    },
    // Two writes of one thread
    Row {
        files: &[("l", TWO_READERS_LOG)],
        text: Content::Text("pairs 1 open 0 forced 1 stuck 0/"),
        ..RACES
    },
    // Whichever of two writes comes first, a read comes too late.
    Row {
        files: &[("l", DEAD_END_LOG)],
        text: Content::Text("pairs 1 open 0 forced 0 stuck 1/"),
        ..RACES
    },
    // One pair of each kind
    Row {
        files: &[("l", TWO_DEAD_ENDS_LOG)],
        text: Content::Text("pairs 3 open 1 forced 1 stuck 1/pair 0 0:1 2:1/"),
        ..RACES
    },
    // A step would come before itself.
    Row {
        files: &[("l", CYCLE_LOG)],
        text: Content::Text("pairs 1 open 0 forced 0 stuck 1/"),
        ..RACES
    },
    // No order respects the log, but by the base edges alone both are left.
    Row {
        files: &[("l", INITIAL_LAST_LOG)],
        text: Content::Text("pairs 1 open 1 forced 0 stuck 0/pair 0 0:1 1:1/"),
        ..RACES
    },
];

// What stands in the way.
pub static STOPPED: [Row; 7] = [
    Row {
        words: "races",
        status: "usage",
        ..RACES
    },
    Row {
        words: "races l l",
        files: &[("l", OWN_WRITE_READ_LOG)],
        status: "usage",
        ..RACES
    },
    Row {
        status: "store fault",
        ..RACES
    },
    Row {
        files: &[("l", OWN_WRITE_READ_LOG)],
        calls: &[1],
        status: "store fault",
        ..RACES
    },
    Row {
        files: &[("l", OLD_LOG)],
        status: "log refused kind 2 at 0",
        ..RACES
    },
    Row {
        files: &[("l", Content::Text("no log"))],
        status: "log refused kind 1 at 6",
        ..RACES
    },
    // The second put fails: five bytes are out.
    Row {
        files: &[("l", OWN_WRITE_READ_LOG)],
        puts: &[2],
        status: "output fault",
        text: Content::Text("pairs"),
        ..RACES
    },
];

// Two threads write word 0 101 times each, and two others each read what one of them wrote: four threads' heads.
const WRITES: u32 = 101;

// The bytes of a log of this: the last write is that of thread 0. Only that one is after all of thread 1, and each write is before
// the later ones of its thread; the others are left open.
fn many_log(alloc: Global) -> Result<Vec<u8>, Fail> {
    let mut bytes = Vec::new(alloc);
    bytes.extend_from_slice(b"LLG2")?;
    bytes.push(4)?;
    put_u16(&mut bytes, 1)?;
    bytes.resize(39, 0)?;
    for limit in [200, 200, 200] {
        put_u32(&mut bytes, limit)?;
    }
    for entries in [0, 0, WRITES, WRITES] {
        bytes.push(0)?;
        for number in [0, WRITES, WRITES, entries, 0] {
            put_u32(&mut bytes, number)?;
        }
    }
    put_u32(&mut bytes, 0x1000_0000 + WRITES)?;
    for writer in [0x1000_0000, 0x2000_0000] {
        for step in 1..=WRITES {
            put_u16(&mut bytes, 0)?;
            for number in [writer + step, step, step] {
                put_u32(&mut bytes, number)?;
            }
        }
    }
    Ok(bytes)
}

// So many first ones of the open pairs are printed.
pub fn list_many<R: Abort + Threads + Sync>(rt: &R, alloc: Global) -> Result<(), Fail> {
    let mut store = MemStore::new(alloc, Vec::new(alloc));
    store.put_file("l", &many_log(alloc)?)?;
    let (status, text) = call(rt, alloc, &mut store, "races l")?;
    assert_eq!(rt; status.as_str(), "");
    let mut wanted = Vec::new(alloc);
    wanted.extend_from_slice(b"pairs 20301 open 10100 forced 10201 stuck 0\n")?;
    for pair in 0..10_000 {
        wanted.extend_from_slice(b"pair 0 0:")?;
        put_decimal(&mut wanted, pair / 101 + 1)?;
        wanted.extend_from_slice(b" 1:")?;
        put_decimal(&mut wanted, pair % 101 + 1)?;
        wanted.push(b'\n')?;
    }
    assert!(rt; text.as_slice() == wanted.as_slice());
    Ok(())
}
