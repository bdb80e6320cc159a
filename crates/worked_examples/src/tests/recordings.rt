// Programs as text, recorded by an order of turns: the entries and the last tags of the log, and the transcript. The
// expected values are worked out by hand, those of `TWO_FLAGS` to `TORN_PAIR` by a model of the machine written apart from it.
use super::programs::{lines_of, program_of};
use light_base::Tag;
use machine::{End, Inputs, Limits};
use recorder::{Recorded, record_turns};
use replay_model::Entry;
use std::alloc::{AllocError, Global};
use std::process::Abort;
use std::test::Fail;
use transcript::text_of;

// A program, its limits, an order of turns, and what they lead to. In texts a slash stands for the end of a line. An
// entry is told as its word, its source, its first and its last step, and the entries of a thread end with a slash.
#[derive(Clone, Copy)]
pub struct Row {
    pub program: &'static str,
    pub limits: (u32, u32, u32),
    pub order: &'static [u8],
    pub entries: &'static str,
    pub last_tags: &'static str,
    pub text: &'static str,
}

const MOST: (u32, u32, u32) = (100, 100, 100);

// A thread reads what it wrote itself.
const OWN_WRITE: Row = Row {
    program: ".words 1/.thread/set r1 7/store r1 r0 0/load r2 r0 0/out r2",
    limits: MOST,
    order: &[],
    entries: "0 0:1 2 2;/",
    last_tags: "0:1;",
    text: "thread 0 halted steps 2 instr 4/out 7/word 0 7/",
};

// A thread reads the initial value, and then another stores to the word.
const INITIAL_VALUE: Row = Row {
    program: ".words 1/.init 0 5/.thread/load r1 r0 0/out r1/.thread/set r1 9/store r1 r0 0",
    limits: MOST,
    order: &[0, 1],
    entries: "0 initial 1 1;//",
    last_tags: "1:1;",
    text: "thread 0 halted steps 1 instr 2/out 5/thread 1 halted steps 1 instr 2/word 0 9/",
};

// Two threads each add 1 to a word by a load and a store, and one update is lost.
const LOST_UPDATE: Row = Row {
    program: arena_samples::LOST_UPDATE,
    limits: MOST,
    order: &[0, 1, 0, 1],
    entries: "0 initial 1 1;/0 initial 1 1;/",
    last_tags: "1:2;",
    text: "thread 0 halted steps 2 instr 4/out 1/thread 1 halted steps 2 instr 4/out 1/word 0 1/",
};

// A thread writes a value and then a flag; another has looked twice in vain, and then reads both.
const MESSAGE_PASSING: Row = Row {
    program: arena_samples::MESSAGE_PASSING,
    limits: MOST,
    order: &[1, 1, 0, 0, 1, 1],
    entries: "/1 initial 1 2;1 0:2 3 3;0 0:1 4 4;/",
    last_tags: "0:1;0:2;",
    text: "thread 0 halted steps 2 instr 4/thread 1 halted steps 4 instr 8/out 42/word 0 42/word 1 1/",
};

// A thread reads a word, another word, and the first again.
const READ_BETWEEN: Row = Row {
    program: ".words 2/.thread/load r1 r0 0/load r2 r0 1/load r3 r0 0",
    limits: MOST,
    order: &[],
    entries: "0 initial 1 3;1 initial 2 2;/",
    last_tags: "initial;initial;",
    text: "thread 0 halted steps 3 instr 3/",
};

// Three threads exchange a number for what stands in the word: each takes what the one before left.
const EXCHANGE_CHAIN: Row = Row {
    program: ".words 1/.thread/set r1 1/xchg r1 r0 0/out r1/.thread/set r1 2/xchg r1 r0 0/out r1/.thread/set r1 3/xchg r1 r0 0/out r1",
    limits: MOST,
    order: &[0, 1, 2],
    entries: "0 initial 1 1;/0 0:1 1 1;/0 1:1 1 1;/",
    last_tags: "2:1;",
    text: "thread 0 halted steps 1 instr 3/out 0/thread 1 halted steps 1 instr 3/out 1/thread 2 halted steps 1 instr 3/out 2/word 0 3/",
};

// Nobody reads what two threads store.
const BLIND_STORES: Row = Row {
    program: ".words 1/.thread/load r1 r0 0/out r1/.thread/set r1 5/store r1 r0 0/.thread/set r1 6/store r1 r0 0",
    limits: MOST,
    order: &[0, 2, 1],
    entries: "0 initial 1 1;///",
    last_tags: "1:1;",
    text: "thread 0 halted steps 1 instr 2/out 0/thread 1 halted steps 1 instr 2/thread 2 halted steps 1 instr 2/word 0 5/",
};

// Between the two steps of a compare-exchange another thread writes the same value: it does not win.
pub const OTHER_WRITER: Row = Row {
    program: ".words 1/.init 0 5/.thread/set r1 5/set r2 8/cas r1 r0 r2 0/out r15/out r1/.thread/set r1 5/store r1 r0 0",
    limits: MOST,
    order: &[0, 1, 0],
    entries: "0 initial 1 1;0 1:1 2 2;//",
    last_tags: "1:1;",
    text: "thread 0 halted steps 2 instr 5/out 2/out 5/thread 1 halted steps 1 instr 2/word 0 5/",
};

// A compare-exchange that finds another value at once takes one step.
const OTHER_VALUE: Row = Row {
    program: ".words 1/.init 0 4/.thread/set r1 5/set r2 8/cas r1 r0 r2 0/out r15/out r1",
    limits: MOST,
    order: &[],
    entries: "0 initial 1 1;/",
    last_tags: "initial;",
    text: "thread 0 halted steps 1 instr 5/out 0/out 4/word 0 4/",
};

// The same, where nobody else writes: it wins, and reads once more what it saw.
const COMPARE_EXCHANGE_WINS: Row = Row {
    program: ".words 1/.init 0 5/.thread/set r1 5/set r2 8/cas r1 r0 r2 0/out r15/out r1",
    limits: MOST,
    order: &[],
    entries: "0 initial 1 2;/",
    last_tags: "0:2;",
    text: "thread 0 halted steps 2 instr 5/out 1/out 5/word 0 8/",
};

// The limits end a compare-exchange between its steps: it is not counted, and leaves its registers.
const HALF_OF_A_COMPARE_EXCHANGE: Row = Row {
    program: ".words 1/.init 0 5/.thread/set r1 5/set r2 8/cas r1 r0 r2 0/out r15",
    limits: (1, 100, 100),
    order: &[],
    entries: "0 initial 1 1;/",
    last_tags: "initial;",
    text: "thread 0 steps-spent steps 1 instr 2/word 0 5/",
};

// So does a full log.
const ENTRIES_BETWEEN: Row = Row {
    program: ".words 1/.init 0 5/.thread/set r1 5/set r2 8/cas r1 r0 r2 0/out r15",
    limits: (100, 100, 1),
    order: &[],
    entries: "0 initial 1 1;/",
    last_tags: "initial;",
    text: "thread 0 entries-full steps 1 instr 2/word 0 5/",
};

// An address past the words, and one that wraps round to 0.
const ADDRESSES: Row = Row {
    program: ".words 4096/.thread/load r1 r0 4096/.thread/set r1 4294967295/load r2 r1 1/out r2",
    limits: MOST,
    order: &[],
    entries: "/0 initial 1 1;/",
    last_tags: "",
    text: "thread 0 bad-address 4096 steps 0 instr 0/thread 1 halted steps 1 instr 3/out 0/",
};

// A thread may have one entry, and ends before it reads another word.
const ONE_ENTRY: Row = Row {
    program: ".words 2/.thread/load r1 r0 0/store r1 r0 1/load r2 r0 1",
    limits: (100, 100, 1),
    order: &[],
    entries: "0 initial 1 1;/",
    last_tags: "initial;0:2;",
    text: "thread 0 entries-full steps 2 instr 2/",
};

// The thread has one more instruction than it may finish.
const INSTRUCTIONS_SPENT: Row = Row {
    program: ".words 3/.init 0 1/.init 2 20/.thread/set r1 4294967295/out r1/set r1 10/out r1/jmp 4",
    limits: (100, 5, 100),
    order: &[],
    entries: "/",
    last_tags: "initial;initial;initial;",
    text: "thread 0 instr-spent steps 0 instr 5/out 4294967295/out 10/word 0 1/word 2 20/",
};

// A word is read twice before another one. Two pairs of word and writer are two entries, whatever the limit above that.
const THREE_ALLOWED: Row = Row {
    program: ".words 2/.thread/load r1 r0 0/load r3 r0 0/load r2 r0 1",
    limits: (100, 100, 3),
    order: &[],
    entries: "0 initial 1 2;1 initial 3 3;/",
    last_tags: "initial;initial;",
    text: "thread 0 halted steps 3 instr 3/",
};

const TWO_ALLOWED: Row = Row {
    limits: (100, 100, 2),
    ..THREE_ALLOWED
};

// One entry is full before the next read, also of the same word.
const ONE_ALLOWED: Row = Row {
    limits: (100, 100, 1),
    entries: "0 initial 1 1;/",
    text: "thread 0 entries-full steps 1 instr 1/",
    ..THREE_ALLOWED
};

// Each operation on two registers, 7 and 35.
const ARITHMETIC: Row = Row {
    program: ".words 1/.thread/set r1 7/set r2 35/add r3 r1 r2/out r3/sub r3 r1 r2/out r3/mul r3 r1 r2/out r3/and r3 r1 r2/out r3/or r3 r1 r2/out r3/xor r3 r1 r2/out r3/shl r3 r1 r2/out r3/shr r3 r1 r2/out r3/mov r4 r2/out r4",
    limits: MOST,
    order: &[],
    entries: "/",
    last_tags: "initial;",
    text: "thread 0 halted steps 0 instr 20/out 42/out 4294967268/out 245/out 3/out 39/out 36/out 56/out 0/out 35/",
};

// The jumps that are taken pass an instruction over; the others do not.
const JUMPS: Row = Row {
    program: ".words 1/.thread/set r1 1/jlt r0 r1 a/out r0/a: jlt r1 r1 b/out r1/b: jne r0 r1 c/out r0/c: jne r1 r1 d/out r1/d: jmp e/out r0/e:",
    limits: MOST,
    order: &[],
    entries: "/",
    last_tags: "initial;",
    text: "thread 0 halted steps 0 instr 8/out 1/out 1/",
};

// Each thread writes its own word and reads the other one: not both read 0.
const STORE_BUFFERING: Row = Row {
    program: arena_samples::STORE_BUFFER,
    limits: MOST,
    order: &[0, 1, 0, 1],
    entries: "1 1:1 2 2;/0 0:1 2 2;/",
    last_tags: "0:1;1:1;",
    text: "thread 0 halted steps 2 instr 4/out 1/thread 1 halted steps 2 instr 4/out 1/word 0 1/word 1 1/",
};

// The same, one thread after the other: the first reads 0.
const STORE_BUFFERING_IN_TURN: Row = Row {
    program: arena_samples::STORE_BUFFER,
    limits: MOST,
    order: &[0, 0, 1, 1],
    entries: "1 initial 2 2;/0 0:1 2 2;/",
    last_tags: "0:1;1:1;",
    text: "thread 0 halted steps 2 instr 4/out 0/thread 1 halted steps 2 instr 4/out 1/word 0 1/word 1 1/",
};

// Each thread raises a flag and waits for the other one.
pub const TWO_FLAGS: Row = Row {
    program: arena_samples::TWO_FLAGS,
    limits: MOST,
    order: &[],
    entries: "1 1:1 2 2;/0 0:1 2 2;/",
    last_tags: "0:1;1:1;",
    text: "thread 0 halted steps 2 instr 4/thread 1 halted steps 2 instr 4/word 0 1/word 1 1/",
};

// Money moves between two accounts under a spin lock made of a compare-exchange: the sum stays.
const BANK_TRANSFER: Row = Row {
    program: ".words 3/.init 1 50/.init 2 50/.thread/set r2 1/lock: set r3 0/cas r3 r0 r2 0/jne r15 r2 lock/set r6 10/load r4 r0 1/sub r4 r4 r6/store r4 r0 1/load r5 r0 2/add r5 r5 r6/store r5 r0 2/store r0 r0 0/.thread/set r2 1/lock: set r3 0/cas r3 r0 r2 0/jne r15 r2 lock/set r6 5/load r4 r0 2/sub r4 r4 r6/store r4 r0 2/load r5 r0 1/add r5 r5 r6/store r5 r0 1/store r0 r0 0",
    limits: MOST,
    order: &[],
    entries: "0 initial 1 2;1 initial 3 3;2 initial 5 5;/0 initial 1 1;0 0:2 2 6;0 0:7 7 8;2 0:6 9 9;1 0:4 11 11;/",
    last_tags: "1:13;1:12;1:10;",
    text: "thread 0 halted steps 7 instr 12/thread 1 halted steps 13 instr 27/word 1 45/word 2 55/",
};

// The object is told to be ready before it is made: the second thread reads a field too early.
const DOUBLE_CHECKED: Row = Row {
    program: ".words 5/.thread/set r1 1/load r2 r0 1/jeq r2 r1 use/lock: set r3 0/cas r3 r0 r1 0/jne r15 r1 lock/load r2 r0 1/jeq r2 r1 done/store r1 r0 1/set r4 42/store r4 r0 2/store r4 r0 3/done: store r0 r0 0/use: load r5 r0 3/out r5/.thread/set r1 1/load r6 r0 4/load r6 r0 4/load r6 r0 4/load r6 r0 4/load r2 r0 1/jeq r2 r1 use/halt/use: load r5 r0 3/out r5",
    limits: MOST,
    order: &[],
    entries: "1 initial 1 4;0 initial 2 3;3 0:7 9 9;/4 initial 1 4;1 0:5 5 5;3 initial 6 6;/",
    last_tags: "0:8;0:5;0:6;0:7;initial;",
    text: "thread 0 halted steps 9 instr 15/out 42/thread 1 halted steps 6 instr 9/out 0/word 1 1/word 2 42/word 3 42/",
};

// A compare-exchange finds the value that it expects, though the stack has changed twice: its top is a node that was taken.
const ABA: Row = Row {
    program: ".words 4/.init 0 1/.init 1 2/.thread/load r1 r0 0/load r2 r1 0/set r7 12/wait: load r9 r0 3/addi r8 r8 1/jlt r8 r7 wait/cas r1 r0 r2 0/out r15/.thread/load r1 r0 0/load r2 r1 0/cas r1 r0 r2 0/load r3 r0 0/load r4 r3 0/cas r3 r0 r4 0/load r5 r0 0/store r5 r1 0/cas r5 r0 r1 0/out r15",
    limits: MOST,
    order: &[],
    entries: "0 initial 1 1;1 initial 2 2;3 initial 3 14;0 1:12 15 16;/0 initial 1 4;1 initial 2 2;0 1:4 5 8;2 initial 6 6;0 1:8 9 12;/",
    last_tags: "0:16;1:10;initial;initial;",
    text: "thread 0 halted steps 16 instr 41/out 1/thread 1 halted steps 12 instr 10/out 1/word 0 2/",
};

// A pair is written by two stores and read by two loads: the reader sees halves of two pairs.
const TORN_PAIR: Row = Row {
    program: ".words 2/.thread/set r1 1/store r1 r0 0/store r1 r0 1/.thread/load r2 r0 1/load r1 r0 0/out r2/out r1",
    limits: MOST,
    order: &[],
    entries: "/1 initial 1 1;0 0:1 2 2;/",
    last_tags: "0:1;0:2;",
    text: "thread 0 halted steps 2 instr 3/thread 1 halted steps 2 instr 4/out 0/out 1/word 0 1/word 1 1/",
};

// Five threads on three words, in an order at which the plain search of their log meets two dead ends.
const FIVE_THREADS: Row = Row {
    program: ".words 3/.thread/set r1 1/store r1 r0 2/set r1 2/store r1 r0 2/load r2 r0 0/out r2/.thread/set r1 3/store r1 r0 0/store r1 r0 1/load r2 r0 1/out r2/.thread/set r1 4/store r1 r0 0/load r2 r0 2/out r2/.thread/load r1 r0 0/load r2 r0 2/set r3 5/store r3 r0 1/load r4 r0 1/out r1/out r2/out r4/.thread/set r1 6/store r1 r0 0/store r1 r0 1/store r1 r0 2",
    limits: MOST,
    order: &[0, 2, 2, 0, 3, 3, 1, 0, 1, 1, 3, 3, 4, 4, 4],
    entries: "0 1:1 3 3;/1 1:2 3 3;/2 0:1 2 2;/0 2:1 1 1;2 0:2 2 2;1 3:3 4 4;//",
    last_tags: "4:1;4:2;4:3;",
    text: "thread 0 halted steps 3 instr 6/out 3/thread 1 halted steps 3 instr 5/out 3/thread 2 halted steps 2 instr 4/out 1/thread 3 halted steps 4 instr 8/out 4/out 2/out 5/thread 4 halted steps 3 instr 4/word 0 6/word 1 6/word 2 6/",
};

pub static ROWS: [Row; 28] = [
    OWN_WRITE,
    INITIAL_VALUE,
    LOST_UPDATE,
    MESSAGE_PASSING,
    READ_BETWEEN,
    EXCHANGE_CHAIN,
    BLIND_STORES,
    OTHER_WRITER,
    OTHER_VALUE,
    COMPARE_EXCHANGE_WINS,
    HALF_OF_A_COMPARE_EXCHANGE,
    ENTRIES_BETWEEN,
    ADDRESSES,
    ONE_ENTRY,
    INSTRUCTIONS_SPENT,
    THREE_ALLOWED,
    TWO_ALLOWED,
    ONE_ALLOWED,
    ARITHMETIC,
    JUMPS,
    STORE_BUFFERING,
    STORE_BUFFERING_IN_TURN,
    TWO_FLAGS,
    BANK_TRANSFER,
    DOUBLE_CHECKED,
    ABA,
    TORN_PAIR,
    FIVE_THREADS,
];

fn source_of(alloc: Global, tag: Tag) -> Result<String, AllocError> {
    match tag.writer() {
        Some(event) => format!(in alloc; "{}:{}", event.thread, event.step),
        None => format!(in alloc; "initial"),
    }
}

fn entry_of(alloc: Global, entry: &Entry) -> Result<String, AllocError> {
    let source = source_of(alloc, entry.source)?;
    format!(in alloc; "{} {source} {} {};", entry.word, entry.first, entry.last)
}

// The entries of all threads as a row tells them.
pub fn entries_of(alloc: Global, recorded: &Recorded) -> Result<String, AllocError> {
    let mut told = String::new(alloc);
    for thread in recorded.log().threads() {
        for entry in thread.entries() {
            told.push_str(entry_of(alloc, entry)?.as_str())?;
        }
        told.push('/')?;
    }
    Ok(told)
}

// The last tags, as a row tells them.
pub fn last_tags_of(alloc: Global, recorded: &Recorded) -> Result<String, AllocError> {
    let mut told = String::new(alloc);
    for tag in recorded.log().finals() {
        told.push_str(source_of(alloc, *tag)?.as_str())?;
        told.push(';')?;
    }
    Ok(told)
}

fn recorded(rt: &impl Abort, alloc: Global, row: &Row) -> Result<Recorded, Fail> {
    let program = program_of(rt, alloc, row.program)?;
    let (steps, instr, entries) = row.limits;
    let limits = Limits::new(steps, instr, entries).ok_or("these are limits")?;
    let count = program.threads_count();
    let inputs = Inputs::none(alloc, count as u8)?;
    assert!(rt; row.order.iter().all(|thread| usize::from(*thread) < count));
    Ok(record_turns(alloc, &program, &limits, &inputs, row.order)?)
}

// Whether the log tells of each thread's end what its report tells, and keeps the limits. No image is known to it yet.
fn agrees(recorded: &Recorded, limits: (u32, u32, u32)) -> bool {
    let log = recorded.log();
    let kept = log.limits();
    *log.digest() == [0; 32]
        && (kept.steps(), kept.instr(), kept.entries()) == limits
        && log.threads().len() == recorded.reports().len()
        && log.threads().iter().zip(recorded.reports()).all(|(logged, report)| {
            logged.end() == report.end()
                && logged.steps() == report.steps()
                && logged.instr() == report.instr()
                && logged.taken().len() == report.taken() as usize
        })
}

// What was recorded is what the row tells.
pub fn check(rt: &impl Abort, alloc: Global, row: &Row, recorded: &Recorded) -> Result<(), Fail> {
    assert!(rt; agrees(recorded, row.limits), "{}", row.program);
    assert_eq!(rt; entries_of(alloc, recorded)?.as_str(), row.entries);
    if !row.last_tags.is_empty() {
        assert_eq!(rt; last_tags_of(alloc, recorded)?.as_str(), row.last_tags);
    }
    let text = text_of(alloc, recorded.reports(), recorded.finals())?;
    let expected = lines_of(alloc, row.text)?;
    assert_eq!(rt; text.as_slice(), expected.as_slice());
    Ok(())
}

#[test]
fn programs_are_recorded_by_turns(rt: HostRuntime) -> Result<(), Fail> {
    let alloc = rt.alloc();
    for row in &ROWS {
        let recorded = recorded(&rt, alloc, row)?;
        check(&rt, alloc, row, &recorded)?;
    }
    Ok(())
}

// A recording and the log in it, taken apart.
#[test]
fn recordings_have_their_parts(rt: HostRuntime) -> Result<(), Fail> {
    let alloc = rt.alloc();
    let (log, mut reports, values) = recorded(&rt, alloc, &OWN_WRITE)?.into_parts();
    assert_eq!(rt; values.as_slice(), [7].as_slice());
    let report = reports.pop().ok_or("one thread")?;
    let (end, steps, instr, output, taken) = report.into_parts();
    assert_eq!(rt;
        (reports.len(), end, steps, instr, taken),
        (0, End::Halted, 2, 4, 0)
    );
    assert_eq!(rt; output.as_slice(), [7].as_slice());
    let (digest, limits, mut threads, tags) = log.into_parts();
    assert_eq!(rt; (digest, limits.entries(), tags.len()), ([0; 32], 100, 1));
    let thread = threads.pop().ok_or("one thread")?;
    let (entries, steps, instr, end, taken) = thread.into_parts();
    assert_eq!(rt;
        (threads.len(), end, steps, instr, taken.len()),
        (0, End::Halted, 2, 4, 0)
    );
    assert_eq!(rt;
        (entries.len(), tags.last()),
        (1, entries.first().map(|entry| &entry.source))
    );
    Ok(())
}
