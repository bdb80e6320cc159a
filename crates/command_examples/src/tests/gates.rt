// Programs that are recorded under a gate, which holds calls until others were made: they come only where threads run side by
// side.
use super::batches::TOLD;
use super::contents::{Content, OWN_WRITE_READ, SMALLEST, TWO_FLAGS, bytes_of};
use super::histories::EXCHANGES;
use super::recordings::OWN_WRITE_READ_LOG;
use super::rows::{call, call_under, store_of};
use light_top::Gate;
use std::alloc::{AllocError, Global};
use std::process::Abort;
use std::sync::atomic::{AtomicBool, AtomicU64, Ordering};
use std::test::Fail;
use std::thread;
use std::thread::Threads;

// A call of a thread and a step that is held, and the one that must have been made before it goes on.
type Hold = ((u8, u32), (u8, u32));

// What is printed: this text; or a line for each thread, which has halted after at least and at most so many steps and with so
// many instructions for each of them, and this end.
#[derive(Clone, Copy)]
enum Printed {
    Text(Content),
    Halted {
        least: u64,
        most: u64,
        each: u64,
        end: &'static str,
    },
}

// A command, the files that it finds, the calls that are held, and what is printed.
#[derive(Clone, Copy)]
pub struct Gated {
    words: &'static str,
    files: &'static [(&'static str, Content)],
    holds: &'static [Hold],
    printed: Printed,
}

// Thread 0 begins once thread 1 does, and thread 1 once thread 0 does.
const BOTH_BEGIN: &[Hold] = &[((0, 1), (1, 1)), ((1, 1), (0, 1))];

// A compare-exchange of 5 by 8, beside a thread that stores 5 and loads it.
const WRITER_BETWEEN: Content = Content::Hex(
    "4c494d31 02 0001 0005 0003 00000005 0101000000000005 0102000000000008 1401000200000000 100f000000000000 1001000000000000 0101000000000005 1201000000000000 1101000000000000",
);

// Thread 0 stores 1 to word 0. Thread 1 loads word 1, word 0 and word 1, and puts out what it found in word 0.
const STORE_AND_LOADS: Content = Content::Hex(
    "4c494d31 02 0002 0002 0004 00000000 00000000 0101000000000001 1201000000000000 1101000000000001 1102000000000000 1103000000000001 1002000000000000",
);

const FLAGS_ARE_MET: Gated = Gated {
    words: "record i l 268435455 1073741824 16384",
    files: &[("i", TWO_FLAGS)],
    holds: &[],
    printed: Printed::Halted {
        least: 2,
        most: 268_435_455,
        each: 2,
        end: "\nword 0 1\nword 1 1\n",
    },
};

pub static GATED: [Gated; 7] = [
    // Two threads that wait for each other end only where both run: one after the other, the first would take all its steps.
    FLAGS_ARE_MET,
    Gated {
        holds: BOTH_BEGIN,
        ..FLAGS_ARE_MET
    },
    // Three threads on two workers.
    Gated {
        words: "record i l 100 100 100 2 1",
        files: &[("i", EXCHANGES)],
        holds: BOTH_BEGIN,
        printed: Printed::Halted {
            least: 1,
            most: 1,
            each: 3,
            end: "\n",
        },
    },
    // Between the two steps of a compare-exchange another thread stores the same value.
    Gated {
        words: "record i l 100 100 100",
        files: &[("i", WRITER_BETWEEN)],
        holds: &[((1, 1), (0, 2)), ((0, 2), (1, 2))],
        printed: Printed::Text(Content::Text(
            "thread 0 halted steps 2 instr 5/out 2/out 5/thread 1 halted steps 2 instr 3/word 0 5/",
        )),
    },
    // The gate is passed before the step: the store comes after the load, though its call is made before it.
    Gated {
        words: "record i l 100 100 100",
        files: &[("i", STORE_AND_LOADS)],
        holds: &[((1, 1), (0, 1)), ((0, 1), (1, 3))],
        printed: Printed::Text(Content::Text(
            "thread 0 halted steps 1 instr 2/thread 1 halted steps 3 instr 4/out 0/word 0 1/",
        )),
    },
    // Each of two workers does one of two jobs.
    Gated {
        words: "batch t 0 2",
        files: &[
            ("t", Content::Text("i k/j k/")),
            ("i", OWN_WRITE_READ),
            ("j", SMALLEST),
            ("k", OWN_WRITE_READ_LOG),
        ],
        holds: &[((0, 1), (1, 2)), ((1, 2), (0, 1))],
        printed: Printed::Text(TOLD),
    },
    Gated {
        words: "arena 7",
        files: &[],
        holds: BOTH_BEGIN,
        printed: Printed::Text(Content::Text(
            "arena 7 threads 8 words 24 moves 128/points 400/replay same/",
        )),
    },
];

#[derive(Drop)]
struct Held {
    hold: Hold,
    was_made: AtomicBool,
}

// How often a held call looks whether the other one was made.
const MOST_TURNS: u32 = 100_000_000;

// Holds calls; none for ever.
#[derive(Drop)]
struct HoldingGate {
    all: Vec<Held>,
    // How many calls were made, and how many of them waited in vain.
    made: AtomicU64,
    vain: AtomicU64,
}

impl Held {
    // Whether the other call was made in time.
    fn wait(&self) -> bool {
        for turn in 0..MOST_TURNS {
            if self.was_made.load(Ordering::SeqCst) {
                return true;
            }
            if turn % 1024 == 1023 {
                thread::yield_now();
            }
        }
        false
    }
}

impl HoldingGate {
    fn new(alloc: Global, holds: &[Hold]) -> Result<HoldingGate, AllocError> {
        let mut all = Vec::new(alloc);
        for hold in holds {
            all.push(Held {
                hold: *hold,
                was_made: AtomicBool::new(false),
            })?;
        }
        Ok(HoldingGate {
            all,
            made: AtomicU64::new(0),
            vain: AtomicU64::new(0),
        })
    }

    // Whether each call for which another one was held was made, and none was held in vain.
    fn was_met(&self) -> bool {
        self.vain.load(Ordering::SeqCst) == 0
            && self
                .all
                .iter()
                .all(|held| held.was_made.load(Ordering::SeqCst))
    }
}

impl Gate for HoldingGate {
    fn pass(&self, thread: u8, step: u32) {
        let call = (thread, step);
        self.made.fetch_add(1, Ordering::SeqCst);
        for held in &self.all {
            if held.hold.1 == call {
                held.was_made.store(true, Ordering::SeqCst);
            }
        }
        for held in &self.all {
            if held.hold.0 == call && !held.wait() {
                self.vain.fetch_add(1, Ordering::SeqCst);
            }
        }
    }
}

// The steps and the instructions of a line such as `thread 0 halted steps 2 instr 4`.
fn numbers_of(line: &str) -> Option<(u64, u64)> {
    let (_, numbers) = line.split_once(" steps ")?;
    let (steps, instr) = numbers.split_once(" instr ")?;
    Some((steps.parse().ok()?, instr.parse().ok()?))
}

// How many steps all threads took, as a transcript tells it.
fn steps_in(text: &str) -> u64 {
    let mut steps: u64 = 0;
    for line in text.lines() {
        if let Some((more, _)) = numbers_of(line) {
            steps = steps.saturating_add(more);
        }
    }
    steps
}

// Whether what is told of a thread is that it halted so.
fn has_halted(line: &str, least: u64, most: u64, each: u64) -> bool {
    let Some((steps, instr)) = numbers_of(line) else {
        return false;
    };
    line.contains(" halted ")
        && least <= steps
        && steps <= most
        && steps.saturating_mul(each) == instr
}

// Whether this is what a row says is printed.
fn is_printed(alloc: Global, printed: &Printed, text: &str) -> Result<bool, AllocError> {
    match printed {
        Printed::Text(content) => Ok(bytes_of(alloc, *content)?.as_slice() == text.as_bytes()),
        Printed::Halted {
            least,
            most,
            each,
            end,
        } => Ok(
            text.ends_with(*end)
                && text
                    .lines()
                    .filter(|line| line.starts_with("thread "))
                    .all(|line| has_halted(line, *least, *most, *each)),
        ),
    }
}

// Runs a row's command. Each call that is waited for is made, each step that a transcript tells of has passed the gate, and a replay
// of what was recorded prints the same.
pub fn pass<R: Abort + Threads + Sync>(rt: &R, alloc: Global, row: &Gated) -> Result<(), Fail> {
    let gate = HoldingGate::new(alloc, row.holds)?;
    let mut store = store_of(alloc, row.files)?;
    let (status, text) = call_under(rt, alloc, &mut store, row.words, &gate)?;
    assert!(rt; status.is_empty(), "{status}");
    let text = String::from_utf8(text)?;
    assert!(rt; is_printed(alloc, &row.printed, text.as_str())?, "{text}");
    assert!(rt; gate.was_met(), "{}", row.words);
    if store.file("l").is_some() {
        assert_eq!(rt; gate.made.load(Ordering::SeqCst), steps_in(text.as_str()));
        let (status, replayed) = call(rt, alloc, &mut store, "replay i l s 0")?;
        assert!(rt; status.is_empty(), "{status}");
        assert_eq!(rt; replayed.as_slice(), text.as_bytes());
    }
    Ok(())
}
