// Each command, with the number of its calls of the store: each of them fails once, and each put.
use super::contents::{Content, OWN_WRITE_READ, bytes_of};
use super::inputs::{SEVEN, SEVEN_LOG, SEVEN_TEXT, TAKER};
use super::logs::OLD_LOG;
use super::recordings::OWN_WRITE_READ_LOG;
use super::rows::{DONE, Row, check, holds, words_of};
use light_base::{MemSink, MemStore, Store};
use light_top::{OpenGate, Status, light};
use std::alloc::Global;
use std::process::Abort;
use std::test::Fail;
use std::thread::Threads;

const SOURCE: Content = Content::Text(
    ".words 1/.thread/set r1 7/store r1 r0 0/load r2 r0 0/out r2/",
);

const TRANSCRIPT: Content = Content::Text("thread 0 halted steps 2 instr 4/out 7/word 0 7/");

const SHOWN: Content = Content::Text(
    "program b4ccf6448bc45676a64744e28389f90c21d30e4190e9c413417dc0164e6fc1e5/words 1/limits 100 100 100/thread 0 halted steps 2 instr 4 entries 1 inputs 0/entry 0 source 0:1 first 2 last 2/word 0 last 0:1/",
);

const STANDS: Content = Content::Text(
    "thread 0 step 1 instr 2/r0 0/r1 7/r2 0/r3 0/r4 0/r5 0/r6 0/r7 0/r8 0/r9 0/r10 0/r11 0/r12 0/r13 0/r14 0/r15 0/run 0 1/",
);

// The SHA-256 of the transcript.
const BOTH_SAME: Content = Content::Text(
    "1 same 3b7e69fb77a5684fe5a27f40e8043798cd80ed88d516a119f5dad18553ba175d/2 same 3b7e69fb77a5684fe5a27f40e8043798cd80ed88d516a119f5dad18553ba175d/",
);

// The only order of the two steps.
const ORDER: Content = Content::Hex("4c534331 00000002 10000001 10000002");

// Commands that are done, each with the number of its calls.
pub static COMMANDS: [(Row, u64); 14] = [
    (
        Row {
            words: "run i 100 100 100",
            files: &[("i", OWN_WRITE_READ)],
            text: TRANSCRIPT,
            ..DONE
        },
        1,
    ),
    (
        Row {
            words: "run i 100 100 100 n",
            files: &[("i", TAKER), ("n", SEVEN)],
            text: SEVEN_TEXT,
            ..DONE
        },
        2,
    ),
    (
        Row {
            words: "record i l 100 100 100",
            files: &[("i", OWN_WRITE_READ)],
            text: TRANSCRIPT,
            after: &[("l", OWN_WRITE_READ_LOG)],
            ..DONE
        },
        2,
    ),
    (
        Row {
            words: "record i l 100 100 100 n",
            files: &[("i", TAKER), ("n", SEVEN), ("l", OWN_WRITE_READ_LOG)],
            text: SEVEN_TEXT,
            after: &[("l", SEVEN_LOG)],
            ..DONE
        },
        3,
    ),
    (
        Row {
            words: "asm t i",
            files: &[("t", SOURCE)],
            after: &[("i", OWN_WRITE_READ)],
            ..DONE
        },
        2,
    ),
    (
        Row {
            words: "list i",
            files: &[("i", OWN_WRITE_READ)],
            text: SOURCE,
            ..DONE
        },
        1,
    ),
    (
        Row {
            words: "show l",
            files: &[("l", OWN_WRITE_READ_LOG)],
            text: SHOWN,
            ..DONE
        },
        1,
    ),
    (
        Row {
            words: "upgrade o l",
            files: &[("o", OLD_LOG)],
            after: &[("l", OWN_WRITE_READ_LOG)],
            ..DONE
        },
        2,
    ),
    (
        Row {
            words: "check l s",
            files: &[("l", OWN_WRITE_READ_LOG), ("s", ORDER)],
            text: Content::Text("respects/"),
            ..DONE
        },
        2,
    ),
    (
        Row {
            words: "solve l s 0",
            files: &[("l", OWN_WRITE_READ_LOG), ("s", SOURCE)],
            text: Content::Text("events 2/"),
            after: &[("s", ORDER)],
            ..DONE
        },
        2,
    ),
    (
        Row {
            words: "until i l 0 1 0",
            files: &[("i", OWN_WRITE_READ), ("l", OWN_WRITE_READ_LOG)],
            text: STANDS,
            ..DONE
        },
        2,
    ),
    (
        Row {
            words: "batch t 0 2",
            files: &[
                ("t", Content::Text("i l/i l/")),
                ("i", OWN_WRITE_READ),
                ("l", OWN_WRITE_READ_LOG),
            ],
            text: BOTH_SAME,
            ..DONE
        },
        5,
    ),
    (
        Row {
            words: "audit i l 0",
            files: &[("i", OWN_WRITE_READ), ("l", OWN_WRITE_READ_LOG)],
            text: Content::Text("legal 2/"),
            ..DONE
        },
        2,
    ),
    (
        Row {
            words: "replay i l s 0",
            files: &[("i", OWN_WRITE_READ), ("l", OWN_WRITE_READ_LOG)],
            text: TRANSCRIPT,
            after: &[("s", ORDER)],
            ..DONE
        },
        3,
    ),
];

// Runs a row's command over a store and a sink of which these calls fail: a put takes one byte.
fn ended<R: Abort + Threads + Sync>(
    rt: &R,
    alloc: Global,
    row: &Row,
    calls: &[u64],
    puts: &[u64],
) -> Result<(Status, MemStore, MemSink), Fail> {
    let mut store = MemStore::new(alloc, Vec::from_slice(alloc, calls)?);
    let mut out = MemSink::new(alloc, 1, Vec::from_slice(alloc, puts)?);
    for (name, content) in row.files {
        store.put_file(name, &bytes_of(alloc, *content)?)?;
    }
    let words = words_of(alloc, row.words)?;
    let status = light(rt, alloc, &words, &mut store, &mut out, &OpenGate);
    Ok((status, store, out))
}

// Whether the next call of the store, which the test makes, fails.
fn fails_next(alloc: Global, store: &mut MemStore, row: &Row) -> bool {
    let Some((name, _)) = row.files.first() else {
        return false;
    };
    store.load(alloc, name, 1000).is_err()
}

// Where a call of the store fails, nothing is printed, and only the file that is saved may have changed; where the last call is a
// save, it has its first half. The call is not made again: the one after it fails too, and is left to the test.
fn check_call<R: Abort + Threads + Sync>(
    rt: &R,
    alloc: Global,
    row: &Row,
    call: u64,
    is_last: bool,
) -> Result<(), Fail> {
    let (status, mut store, out) = ended(rt, alloc, row, &[call, call.saturating_add(1)], &[])?;
    assert_eq!(rt; status, Status::StoreFault, "call {call} of {}", row.words);
    assert!(rt; out.taken().is_empty());
    for (name, content) in row.files {
        if !row.after.iter().any(|(saved, _)| *saved == *name) {
            assert!(rt;
                holds(alloc, &store, name, *content)?,
                "{name} of {}",
                row.words
            );
        }
    }
    for (name, content) in row.after {
        let bytes = bytes_of(alloc, *content)?;
        let half = &bytes[..bytes.len() / 2];
        assert!(rt;
            !is_last || store.file(name) == Some(half),
            "{name} of {}",
            row.words
        );
    }
    assert!(rt;
        fails_next(alloc, &mut store, row),
        "after call {call} of {}",
        row.words
    );
    Ok(())
}

// Where a put fails, the bytes before it were taken, and the files are those of a command that is done.
fn check_put<R: Abort + Threads + Sync>(
    rt: &R,
    alloc: Global,
    row: &Row,
    put: u64,
) -> Result<(), Fail> {
    let (status, store, out) = ended(rt, alloc, row, &[], &[put])?;
    assert_eq!(rt; status, Status::SinkFault, "put {} of {}", put, row.words);
    let text = bytes_of(alloc, row.text)?;
    assert!(rt; out.taken().len() as u64 + 1 == put);
    assert!(rt; text.as_slice().starts_with(out.taken()));
    for (name, content) in row.after {
        assert!(rt;
            holds(alloc, &store, name, *content)?,
            "{} of {}",
            name,
            row.words
        );
    }
    Ok(())
}

// Each call and each put of a row fails once; those after the last never come.
pub fn check_faults<R: Abort + Threads + Sync>(
    rt: &R,
    alloc: Global,
    row: &Row,
    calls: u64,
) -> Result<(), Fail> {
    for call in 0..calls {
        let call = call.saturating_add(1);
        check_call(rt, alloc, row, call, call == calls)?;
    }
    let puts = bytes_of(alloc, row.text)?.len() as u64;
    for put in 0..puts {
        check_put(rt, alloc, row, put.saturating_add(1))?;
    }
    let (status, _, out) = ended(
        rt,
        alloc,
        row,
        &[calls.saturating_add(1)],
        &[puts.saturating_add(1)],
    )?;
    assert_eq!(rt; status, Status::Ok, "{}", row.words);
    assert_eq!(rt; out.taken().len() as u64, puts);
    check(rt, alloc, row)
}
