// `batch`: what becomes of each job of a list, for every number of workers.
use super::contents::{Content, OWN_WRITE_READ, SMALLEST};
use super::histories::{CROSSED, CROSSED_LOG, LAST_NOBODY_LOG, TWO_LOADS, TWO_LOADS_LOG};
use super::recordings::OWN_WRITE_READ_LOG;
use super::rows::{DONE, Row, call, store_of};
use arena_samples::arena;
use light_base::MemStore;
use log_file::digest_of;
use machine::write_image;
use std::alloc::{AllocError, Global};
use std::process::Abort;
use std::test::Fail;
use std::thread::Threads;

const FILES: &[(&str, Content)] = &[
    ("t", Content::Text("i l/j l/")),
    ("i", OWN_WRITE_READ),
    ("j", SMALLEST),
    ("l", OWN_WRITE_READ_LOG),
];

// The SHA-256 of `thread 0 halted steps 2 instr 4/out 7/word 0 7/`.
pub const TOLD: Content = Content::Text(
    "1 same 3b7e69fb77a5684fe5a27f40e8043798cd80ed88d516a119f5dad18553ba175d/2 wrong program/",
);

const TWO_JOBS: Row = Row {
    words: "batch t 0 1",
    files: FILES,
    text: TOLD,
    ..DONE
};

// Each verdict, and one of them twice.
const ALL: Row = Row {
    words: "batch t 0 1",
    files: &[
        ("t", Content::Text("i l/l l/i bad/j l/c k/i m/o p/i l/")),
        ("i", OWN_WRITE_READ),
        ("l", OWN_WRITE_READ_LOG),
        ("bad", Content::Text("no log")),
        ("j", SMALLEST),
        ("c", CROSSED),
        ("k", CROSSED_LOG),
        ("m", LAST_NOBODY_LOG),
        ("o", TWO_LOADS),
        ("p", TWO_LOADS_LOG),
    ],
    text: Content::Text(
        "1 same 3b7e69fb77a5684fe5a27f40e8043798cd80ed88d516a119f5dad18553ba175d/2 image refused/3 log refused/4 wrong program/5 budget spent/6 no schedule/7 differs/8 same 3b7e69fb77a5684fe5a27f40e8043798cd80ed88d516a119f5dad18553ba175d/",
    ),
    ..DONE
};

pub static DONE_BY_ALL: [Row; 11] = [
    TWO_JOBS,
    Row {
        words: "batch t 0 2",
        ..TWO_JOBS
    },
    Row {
        words: "batch t 4294967295 15",
        ..TWO_JOBS
    },
    // The last line need not end.
    Row {
        files: &[
            ("t", Content::Text("i l/j l")),
            ("i", OWN_WRITE_READ),
            ("j", SMALLEST),
            ("l", OWN_WRITE_READ_LOG),
        ],
        ..TWO_JOBS
    },
    ALL,
    Row {
        words: "batch t 0 2",
        ..ALL
    },
    Row {
        words: "batch t 0 3",
        ..ALL
    },
    Row {
        words: "batch t 0 15",
        ..ALL
    },
    // Images that are no image are told before logs that are no log.
    Row {
        words: "batch t 0 3",
        files: &[
            ("t", Content::Text("bad bad/")),
            ("bad", Content::Text("no log")),
        ],
        text: Content::Text("1 image refused/"),
        ..DONE
    },
    // The names have every byte that can be seen.
    Row {
        words: "batch t 0 3",
        files: &[
            ("t", Content::Hex("217e 20 235c")),
            ("!~", SMALLEST),
            ("#\\", OWN_WRITE_READ_LOG),
        ],
        text: Content::Text("1 wrong program/"),
        ..DONE
    },
    Row {
        words: "batch t 1 3",
        files: &[
            ("t", Content::Text("c k/")),
            ("c", CROSSED),
            ("k", CROSSED_LOG),
        ],
        text: Content::Text("1 no schedule/"),
        ..DONE
    },
];

// A list, and its first line at fault. No file that it names is loaded.
pub static REFUSED: [(Content, &str); 17] = [
    (Content::Text("a  b"), "list refused line 1"),
    (Content::Text(""), "list refused line 1"),
    (Content::Text("/"), "list refused line 1"),
    (Content::Text(" a b"), "list refused line 1"),
    (Content::Text("a b "), "list refused line 1"),
    (Content::Text("a"), "list refused line 1"),
    (Content::Text("a "), "list refused line 1"),
    (Content::Text("a b c"), "list refused line 1"),
    (Content::Text("a b//"), "list refused line 2"),
    (Content::Text("a b/a/"), "list refused line 2"),
    (Content::Hex("612062 0d0a"), "list refused line 1"),
    (Content::Hex("61207f 0a"), "list refused line 1"),
    (Content::Hex("612080 0a"), "list refused line 1"),
    (
        Content::Repeated("i l/", 63, "a/a b/a b/"),
        "list refused line 64",
    ),
    (Content::Repeated("i l/", 64, "a/"), "list refused line 65"),
    (Content::Repeated("i l/", 65, ""), "list refused line 65"),
    (Content::Repeated("i l/", 70, ""), "list refused line 65"),
];

const NOTHING: Row = Row {
    words: "batch t 0 1",
    ..DONE
};

// What stands in the way: the files are loaded line after line, in each the image before the log, and all before any job.
pub static STOPPED: [Row; 7] = [
    Row {
        status: "store fault",
        ..NOTHING
    },
    Row {
        files: &[("t", Content::Sized("61206220", 8_388_609))],
        status: "too long: 8388609",
        ..NOTHING
    },
    Row {
        files: &[
            ("t", Content::Text("i l/i m/")),
            ("i", SMALLEST),
            ("l", SMALLEST),
        ],
        status: "store fault",
        ..NOTHING
    },
    Row {
        files: &[
            ("t", Content::Text("i l/i m/")),
            ("i", Content::Sized("", 8_388_609)),
        ],
        status: "too long: 8388609",
        ..NOTHING
    },
    Row {
        files: &[
            ("t", Content::Text("i l/i m/")),
            ("l", Content::Sized("", 8_388_609)),
        ],
        status: "store fault",
        ..NOTHING
    },
    Row {
        files: &[
            ("t", Content::Text("i l/l i/")),
            ("i", SMALLEST),
            ("l", Content::Sized("", 8_388_609)),
        ],
        status: "too long: 8388609",
        ..NOTHING
    },
    // 64 jobs, and the last of 129 loads fails.
    Row {
        files: &[
            ("t", Content::Repeated("i l/", 64, "")),
            ("i", SMALLEST),
            ("l", SMALLEST),
        ],
        calls: &[129],
        status: "store fault",
        ..NOTHING
    },
];

// A list that is refused; nothing that it names is there.
pub fn refuse<R: Abort + Threads + Sync>(
    rt: &R,
    alloc: Global,
    list: Content,
    status: &str,
) -> Result<(), Fail> {
    let mut store = store_of(alloc, &[("t", list)])?;
    let (ended, text) = call(rt, alloc, &mut store, "batch t 0 4")?;
    assert_eq!(rt; ended.as_str(), status);
    assert!(rt; text.is_empty());
    Ok(())
}

// The line of a job whose runs are the same, with this transcript.
fn same_line(alloc: Global, job: u32, transcript: &[u8]) -> Result<String, AllocError> {
    let mut line = format!(in alloc; "{job} same ")?;
    for byte in &digest_of(transcript) {
        line.push_str(format!(in alloc; "{byte:02x}")?.as_str())?;
    }
    line.push('\n')?;
    Ok(line)
}

// Records the arenas 0 to 63, and then all their logs are the same.
pub fn replay_arenas<R: Abort + Threads + Sync>(rt: &R, alloc: Global) -> Result<(), Fail> {
    let mut store = MemStore::new(alloc, Vec::new(alloc));
    let mut list = String::new(alloc);
    let mut told = String::new(alloc);
    for number in 0..64 {
        let image = write_image(alloc, &arena(alloc, number)?)?;
        store.put_file(format!(in alloc; "i{number}")?.as_str(), &image)?;
        let words = format!(in alloc; "record i{number} l{number} 1000000 10000000 16384")?;
        let (status, transcript) = call(rt, alloc, &mut store, words.as_str())?;
        assert!(rt; status.is_empty(), "{status}");
        list.push_str(format!(in alloc; "i{number} l{number}\n")?.as_str())?;
        told.push_str(same_line(alloc, number + 1, &transcript)?.as_str())?;
    }
    store.put_file("t", list.as_bytes())?;
    let (status, text) = call(rt, alloc, &mut store, "batch t 0 4")?;
    assert!(rt; status.is_empty(), "{status}");
    assert!(rt; text.as_slice() == told.as_bytes());
    Ok(())
}
