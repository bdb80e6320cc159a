// Programs as text, recorded on real threads. Where each history of a program ends alike, all is compared.
use super::programs::program_of;
use super::recordings::{Row, check};
use machine::{End, Inputs, Limits, RunReport};
use recorder::{OpenGate, Recorded, record, run_thread};
use std::alloc::Global;
use std::process::Abort;
use std::test::Fail;
use std::thread::Threads;
use tagged_words::Words;

const MOST: (u32, u32, u32) = (100, 100, 100);

// The greatest limits that there are.
const GREATEST: (u32, u32, u32) = (268_435_455, 1_073_741_824, 16_384);

// One thread alone has one history.
const READ_BETWEEN: Row = Row {
    program: ".words 2/.thread/load r1 r0 0/load r2 r0 1/load r3 r0 0",
    limits: MOST,
    order: &[],
    entries: "0 initial 1 3;1 initial 2 2;/",
    last_tags: "initial;initial;",
    text: "thread 0 halted steps 3 instr 3/",
};

const ONE_ENTRY: Row = Row {
    program: ".words 2/.thread/load r1 r0 0/store r1 r0 1/load r2 r0 1",
    limits: (100, 100, 1),
    order: &[],
    entries: "0 initial 1 1;/",
    last_tags: "initial;0:2;",
    text: "thread 0 entries-full steps 2 instr 2/",
};

const COMPARE_EXCHANGE_WINS: Row = Row {
    program: ".words 1/.init 0 5/.thread/set r1 5/set r2 8/cas r1 r0 r2 0/out r15/out r1",
    limits: MOST,
    order: &[],
    entries: "0 initial 1 2;/",
    last_tags: "0:2;",
    text: "thread 0 halted steps 2 instr 5/out 1/out 5/word 0 8/",
};

// Threads that share no word that one of them writes end alike in each history.
const ADDRESSES: Row = Row {
    program: ".words 4096/.thread/load r1 r0 4096/.thread/set r1 4294967295/load r2 r1 1/out r2",
    limits: MOST,
    order: &[],
    entries: "/0 initial 1 1;/",
    last_tags: "",
    text: "thread 0 bad-address 4096 steps 0 instr 0/thread 1 halted steps 1 instr 3/out 0/",
};

const NO_STEPS: Row = Row {
    program: ".words 1/.thread/load r1 r0 0/addi r1 r1 1/store r1 r0 0/out r1/.thread/load r1 r0 0/addi r1 r1 1/store r1 r0 0/out r1",
    limits: (0, 100, 100),
    order: &[],
    entries: "//",
    last_tags: "initial;",
    text: "thread 0 steps-spent steps 0 instr 0/thread 1 steps-spent steps 0 instr 0/",
};

static FORCED: [Row; 5] = [
    READ_BETWEEN,
    ONE_ENTRY,
    COMPARE_EXCHANGE_WINS,
    ADDRESSES,
    NO_STEPS,
];

// Each thread writes its own word and reads the other one: not both read 0.
const STORE_BUFFERING: &str =
    ".words 2/.thread/set r1 1/store r1 r0 0/load r2 r0 1/out r2/.thread/set r1 1/store r1 r0 1/load r2 r0 0/out r2";

// A thread writes a value and then a flag; another one waits for the flag and reads the value.
const MESSAGE_PASSING: &str =
    ".words 2/.thread/set r1 42/store r1 r0 0/set r2 1/store r2 r0 1/.thread/wait: load r1 r0 1/jeq r1 r0 wait/load r2 r0 0/out r2";

// Adds 1 to a word fifty times, each by a compare-exchange that is tried until it wins.
const COUNTING_THREAD: &str =
    "/.thread/set r4 50/set r5 1/next: load r1 r0 0/mov r3 r1/addi r2 r1 1/cas r1 r0 r2 0/jne r15 r5 next/addi r6 r6 1/jlt r6 r4 next";

fn recorded<R: Threads + Sync + Abort>(
    rt: &R,
    alloc: Global,
    text: &str,
    limits: (u32, u32, u32),
) -> Result<Recorded, Fail> {
    let program = program_of(rt, alloc, text)?;
    let (steps, instr, entries) = limits;
    let limits = Limits::new(steps, instr, entries).ok_or("these are limits")?;
    let inputs = Inputs::none(alloc, program.threads_count() as u8)?;
    Ok(record(rt, alloc, &program, &limits, &inputs, &OpenGate)?)
}

// A thread alone at its words, which reads what it wrote.
#[test]
fn one_thread_runs_to_its_end(rt: HostRuntime) -> Result<(), Fail> {
    let alloc = rt.alloc();
    let text = ".words 1/.thread/in r1/store r1 r0 0/load r2 r0 0/out r2";
    let program = program_of(&rt, alloc, text)?;
    let limits = Limits::new(100, 100, 100).ok_or("these are limits")?;
    let (words, mut hands) = Words::open(alloc, program.words(), 1)?;
    let hand = hands.pop().ok_or("a hand")?;
    match run_thread(alloc, &words, hand, &program, &limits, &[7, 8], &OpenGate) {
        Ok(finished) => {
            assert_eq!(rt; (finished.hand.thread(), finished.hand.steps()), (0, 2));
            assert_eq!(rt;
                (finished.report.instr(), finished.report.output()),
                (4, [7].as_slice())
            );
            assert_eq!(rt; finished.log.entries().len(), 1);
            assert_eq!(rt; finished.log.taken(), [7].as_slice());
            Ok(())
        }
        Err(_) => Err("no memory".into()),
    }
}

// Programs that end alike in each history.
#[test]
fn what_is_forced_is_recorded_on_threads(rt: HostRuntime) -> Result<(), Fail> {
    let alloc = rt.alloc();
    for row in &FORCED {
        let recorded = recorded(&rt, alloc, row.program, row.limits)?;
        check(&rt, alloc, row, &recorded)?;
    }
    Ok(())
}

fn has_halted(report: &RunReport) -> bool {
    report.end() == End::Halted
}

#[test]
fn messages_are_passed_on_threads(rt: HostRuntime) -> Result<(), Fail> {
    let alloc = rt.alloc();
    for _ in 0..100 {
        let recorded = recorded(&rt, alloc, MESSAGE_PASSING, GREATEST)?;
        for report in recorded.reports() {
            assert!(rt; has_halted(report) && report.instr() / 2 == report.steps());
        }
        let received = recorded.reports().last().ok_or("two threads")?;
        assert_eq!(rt; received.output(), [42].as_slice());
        assert_eq!(rt; recorded.finals(), [42, 1].as_slice());
    }
    Ok(())
}

// A compare-exchange that another thread's store of the same value may come before, after, or between.
const COMPARE_EXCHANGE: &str =
    ".words 1/.init 0 5/.thread/set r1 5/set r2 8/cas r1 r0 r2 0/out r15/out r1/.thread/set r1 5/store r1 r0 0";

// Whether the first thread won, and left its value or the store's; or lost, and left the store's.
fn has_won_or_lost(recorded: &Recorded) -> bool {
    let Some(report) = recorded.reports().first() else {
        return false;
    };
    let left = recorded.finals();
    (report.output() == [1, 5].as_slice() && (left == [8].as_slice() || left == [5].as_slice()))
        || (report.output() == [2, 5].as_slice() && left == [5].as_slice())
}

#[test]
fn a_compare_exchange_wins_or_loses(rt: HostRuntime) -> Result<(), Fail> {
    let alloc = rt.alloc();
    for _ in 0..100 {
        let recorded = recorded(&rt, alloc, COMPARE_EXCHANGE, MOST)?;
        assert!(rt; recorded.reports().iter().all(has_halted) && has_won_or_lost(&recorded));
    }
    Ok(())
}

fn missed(report: &RunReport) -> bool {
    report.output() == [0].as_slice()
}

#[test]
fn stores_are_never_both_missed(rt: HostRuntime) -> Result<(), Fail> {
    let alloc = rt.alloc();
    for _ in 0..1000 {
        let recorded = recorded(&rt, alloc, STORE_BUFFERING, MOST)?;
        let reports = recorded.reports();
        assert!(rt; reports.iter().all(has_halted));
        assert!(rt; !reports.iter().all(missed), "both threads read 0");
    }
    Ok(())
}

#[test]
fn fifteen_threads_count_on_one_word(rt: HostRuntime) -> Result<(), Fail> {
    let alloc = rt.alloc();
    let mut text = String::from_str(alloc, ".words 1")?;
    for _ in 0..15 {
        text.push_str(COUNTING_THREAD)?;
    }
    let recorded = recorded(&rt, alloc, text.as_str(), GREATEST)?;
    assert_eq!(rt; recorded.reports().len(), 15);
    assert!(rt; recorded.reports().iter().all(has_halted));
    assert_eq!(rt; recorded.finals(), [750].as_slice());
    Ok(())
}
