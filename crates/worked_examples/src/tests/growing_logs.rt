// Logs of one thread that grow: the reads that are noted, and the entries that they come to, worked out by hand.
ghost use Rattle.std.specs.Prelude.{◌≡◌, ◌<◌, All, true, IsTrue, ◌↔◌};
ghost use Rattle.std.specs.List.{list_any};
ghost use Rattle.replay_model.specs.MoreReads.{is_entry_for};

use dep_log::{DepLog, Entry};
use light_base::Tag;
use machine::End;
use running_thread::cells::same_tag;
use std::alloc::{AllocError, Global};
use std::process::Abort;
use std::test::Fail;

// How many words there are and how many entries there may be; reads, each with its word, the write that it saw, and its step; from
// which read on the log is full; and the entries, each as its word, its source, its first and its last step.
#[derive(Clone, Copy)]
struct Row {
    words: u16,
    limit: u32,
    reads: &'static [(u16, &'static str, u32)],
    full_from: usize,
    entries: &'static str,
}

static ROWS: [Row; 7] = [
    // A word as it was, as another thread wrote it, and as it was again, which no thread sees.
    Row {
        words: 1,
        limit: 2,
        reads: &[(0, "initial", 1), (0, "1:1", 2), (0, "initial", 3)],
        full_from: 2,
        entries: "0 initial 1 3;0 1:1 2 2;",
    },
    // Three words that share one of four buckets: the oldest entry stands behind two others.
    Row {
        words: 4,
        limit: 4,
        reads: &[
            (0, "1:1", 1),
            (1, "1:2", 2),
            (2, "initial", 3),
            (0, "1:1", 5),
            (1, "1:2", 6),
            (2, "initial", 9),
        ],
        full_from: 7,
        entries: "0 1:1 1 5;1 1:2 2 6;2 initial 3 9;",
    },
    // One source in two words and two sources of one word, all in one bucket of eight.
    Row {
        words: 9,
        limit: 8,
        reads: &[
            (0, "initial", 1),
            (0, "0:4", 2),
            (8, "0:4", 4),
            (0, "initial", 5),
            (8, "0:4", 8),
            (0, "0:4", 10),
        ],
        full_from: 7,
        entries: "0 initial 1 5;0 0:4 2 10;8 0:4 4 8;",
    },
    // A full log, whose pairs are read again.
    Row {
        words: 2,
        limit: 3,
        reads: &[
            (0, "initial", 2),
            (1, "initial", 3),
            (1, "0:1", 4),
            (0, "initial", 5),
            (1, "0:1", 6),
            (1, "initial", 7),
            (0, "initial", 8),
        ],
        full_from: 3,
        entries: "0 initial 2 8;1 initial 3 7;1 0:1 4 6;",
    },
    // One entry is allowed, and there is one bucket.
    Row {
        words: 2,
        limit: 1,
        reads: &[(1, "2:2", 3), (1, "2:2", 4)],
        full_from: 1,
        entries: "1 2:2 3 4;",
    },
    // No entry is allowed.
    Row {
        words: 1,
        limit: 0,
        reads: &[],
        full_from: 0,
        entries: "",
    },
    // The greatest numbers.
    Row {
        words: 4096,
        limit: 16384,
        reads: &[
            (4095, "14:268435455", 1),
            (4095, "14:268435455", 4294967295),
        ],
        full_from: 3,
        entries: "4095 14:268435455 1 4294967295;",
    },
];

// The tag of `initial`, or of a step such as `1:2`.
fn tag_of(text: &str) -> Option<Tag> {
    if text == "initial" {
        return Some(Tag::INITIAL);
    }
    let (thread, step) = text.split_once(':')?;
    Tag::of(thread.parse().ok()?, step.parse().ok()?)
}

fn text_of(alloc: Global, entries: &[Entry]) -> Result<String, AllocError> {
    let mut text = String::new(alloc);
    for entry in entries {
        let source = match entry.source.writer() {
            Some(event) => format!(in alloc; "{}:{}", event.thread, event.step)?,
            None => format!(in alloc; "initial")?,
        };
        let line = format!(in alloc; "{} {source} {} {};", entry.word, entry.first, entry.last)?;
        text.push_str(line.as_str())?;
    }
    Ok(text)
}

// Whether all entries end before the step.
fn are_before(entries: &[Entry], step: u32) -> bool
    ensures { IsTrue result ↔ All (λ entry. entry.last < step) entries.now }
{
    entries.iter().all(|entry| entry.last < step)
}

// Whether the entry is that of the word and the tag.
fn is_entry_for(entry: &Entry, word: u16, tag: Tag) -> bool
    ensures { result ≡ is_entry_for word tag entry.now }
{
    word == entry.word && same_tag(tag, entry.source)
}

// Whether the word and the tag have their entry.
fn has_entry(entries: &[Entry], word: u16, tag: Tag) -> bool
    ensures { result ≡ list_any (is_entry_for word tag) entries.now }
{
    entries.iter().any(|entry| is_entry_for(entry, word, tag))
}

// Notes a read, which must be one that may be noted.
fn note(rt: &impl Abort, log: &mut DepLog, words: u16, word: u16, tag: Tag, step: u32)
    requires { log.old.words ≡ words }
    ensures { log.new.words ≡ words }
{
    assert!(rt; word < words && step > 0);
    assert!(rt; are_before(log.entries(), step));
    if log.is_full() {
        assert!(rt; has_entry(log.entries(), word, tag));
        log.saw(word, tag, step);
    } else {
        log.saw(word, tag, step);
    }
}

// Notes the reads of a row.
fn grown(rt: &impl Abort, alloc: Global, row: &Row) -> Result<DepLog, Fail> {
    assert!(rt; 1 <= row.words && row.words <= 4096 && row.limit <= 16384);
    let mut log = DepLog::new(alloc, row.words, row.limit)?;
    let mut count: usize = 0;
    assert_eq!(rt; log.is_full(), row.full_from == 0);
    for (word, source, step) in row.reads {
        let tag = tag_of(source).ok_or("this is a source")?;
        note(rt, &mut log, row.words, *word, tag, *step);
        count = count.saturating_add(1);
        assert_eq!(rt; log.is_full(), row.full_from <= count, "{}", row.entries);
    }
    Ok(log)
}

#[test]
fn reads_are_noted(rt: HostRuntime) -> Result<(), Fail> {
    let alloc = rt.alloc();
    for row in &ROWS {
        let log = grown(&rt, alloc, row)?;
        let text = text_of(alloc, log.entries())?;
        assert_eq!(rt; text.as_str(), row.entries);
    }
    Ok(())
}

// What a thread did stands beside its entries.
#[test]
fn log_is_finished(rt: HostRuntime) -> Result<(), Fail> {
    let alloc = rt.alloc();
    let mut log = DepLog::new(alloc, 1, 1)?;
    log.saw(0, Tag::INITIAL, 2);
    let log = log.finish(3, 7, End::InputEmpty, Vec::from_slice(alloc, &[5, 8])?);
    let text = text_of(alloc, log.entries())?;
    assert_eq!(rt; text.as_str(), "0 initial 2 2;");
    assert_eq!(rt;
        (log.steps(), log.instr(), log.end()),
        (3, 7, End::InputEmpty)
    );
    assert_eq!(rt; log.taken(), [5, 8].as_slice());
    Ok(())
}
