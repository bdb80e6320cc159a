// Replays: programs as text, recorded by an order of turns and replayed by another order, which respects the log. The
// expected transcripts are those of the recordings, worked out by hand.
use super::programs::{lines_of, program_of};
use dep_log::RunLog;
use light_base::{Event, Memory, Tag};
use log_file::{read_log, write_log};
use machine::{End, Inputs, Limits, Program};
use recorder::record_turns;
use replayer::{Kept, Replay, Replayed, Turned, replay_order};
use std::alloc::{AllocError, Global};
use std::process::Abort;
use std::test::Fail;
use transcript::text_of;

// A program, its limits, the input numbers of thread 0, the turns by which it is recorded, the order by which it is
// replayed, and the transcript. In texts a slash stands for the end of a line.
#[derive(Clone, Copy)]
struct Row {
    program: &'static str,
    limits: (u32, u32, u32),
    inputs: &'static [u32],
    turns: &'static [u8],
    order: &'static str,
    text: &'static str,
}

const MOST: (u32, u32, u32) = (100, 100, 100);

const SMALLEST: Row = Row {
    program: ".words 1/.thread/halt",
    limits: (10, 10, 10),
    inputs: &[],
    turns: &[],
    order: "",
    text: "thread 0 halted steps 0 instr 0/",
};

// A thread reads what it wrote itself.
const OWN_WRITE: Row = Row {
    program: ".words 1/.thread/set r1 7/store r1 r0 0/load r2 r0 0/out r2",
    limits: MOST,
    inputs: &[],
    turns: &[],
    order: "0:1 0:2",
    text: "thread 0 halted steps 2 instr 4/out 7/word 0 7/",
};

// One of two updates is lost: nobody saw the first store, and the replay leaves it out.
const LOST_UPDATE: Row = Row {
    program: arena_samples::LOST_UPDATE,
    limits: MOST,
    inputs: &[],
    turns: &[0, 1, 0, 1],
    order: "0:1 1:1 1:2",
    text: "thread 0 halted steps 2 instr 4/out 1/thread 1 halted steps 2 instr 4/out 1/word 0 1/",
};

// The two reads of the initial value may also come the other way round.
const LOST_UPDATE_OTHERWISE: Row = Row {
    order: "1:1 0:1 1:2",
    ..LOST_UPDATE
};

// No memory step is allowed.
const NO_STEPS: Row = Row {
    limits: (0, 100, 100),
    turns: &[],
    order: "",
    text: "thread 0 steps-spent steps 0 instr 0/thread 1 steps-spent steps 0 instr 0/",
    ..LOST_UPDATE
};

const MESSAGE_PASSING: Row = Row {
    program: arena_samples::MESSAGE_PASSING,
    limits: MOST,
    inputs: &[],
    turns: &[1, 1, 0, 0, 1, 1],
    order: "0:1 1:1 1:2 0:2 1:3 1:4",
    text: "thread 0 halted steps 2 instr 4/thread 1 halted steps 4 instr 8/out 42/word 0 42/word 1 1/",
};

const EXCHANGE_CHAIN: Row = Row {
    program: ".words 1/.thread/set r1 1/xchg r1 r0 0/out r1/.thread/set r1 2/xchg r1 r0 0/out r1/.thread/set r1 3/xchg r1 r0 0/out r1",
    limits: MOST,
    inputs: &[],
    turns: &[0, 1, 2],
    order: "0:1 1:1 2:1",
    text: "thread 0 halted steps 1 instr 3/out 0/thread 1 halted steps 1 instr 3/out 1/thread 2 halted steps 1 instr 3/out 2/word 0 3/",
};

// The store of thread 2 is no event, and is left out.
const BLIND_STORES: Row = Row {
    program: ".words 1/.thread/load r1 r0 0/out r1/.thread/set r1 5/store r1 r0 0/.thread/set r1 6/store r1 r0 0",
    limits: MOST,
    inputs: &[],
    turns: &[0, 2, 1],
    order: "0:1 1:1",
    text: "thread 0 halted steps 1 instr 2/out 0/thread 1 halted steps 1 instr 2/thread 2 halted steps 1 instr 2/word 0 5/",
};

const OTHER_WRITER: Row = Row {
    program: ".words 1/.init 0 5/.thread/set r1 5/set r2 8/cas r1 r0 r2 0/out r15/out r1/.thread/set r1 5/store r1 r0 0",
    limits: MOST,
    inputs: &[],
    turns: &[0, 1, 0],
    order: "0:1 1:1 0:2",
    text: "thread 0 halted steps 2 instr 5/out 2/out 5/thread 1 halted steps 1 instr 2/word 0 5/",
};

// A thread takes the only number that there is, and ends before the next.
const INPUT_EMPTY: Row = Row {
    program: ".words 1/.thread/in r1/out r1/in r1/out r1",
    limits: MOST,
    inputs: &[7],
    turns: &[],
    order: "",
    text: "thread 0 input-empty steps 0 instr 2/out 7/",
};

// It takes two of three numbers.
const INPUT_LEFT: Row = Row {
    inputs: &[7, 8, 9],
    text: "thread 0 halted steps 0 instr 4/out 7/out 8/",
    ..INPUT_EMPTY
};

static ROWS: [Row; 11] = [
    SMALLEST,
    OWN_WRITE,
    LOST_UPDATE,
    LOST_UPDATE_OTHERWISE,
    NO_STEPS,
    MESSAGE_PASSING,
    EXCHANGE_CHAIN,
    BLIND_STORES,
    OTHER_WRITER,
    INPUT_EMPTY,
    INPUT_LEFT,
];

fn event_of(text: &str) -> Option<Event> {
    let (thread, step) = text.split_once(':')?;
    Some(Event {
        thread: thread.parse().ok()?,
        step: step.parse().ok()?,
    })
}

// The events of a text such as `0:1 1:1`.
fn order_of(alloc: Global, text: &str) -> Result<Vec<Event>, Fail> {
    let mut order = Vec::new(alloc);
    for word in text.split_whitespace() {
        order.push(event_of(word).ok_or("this is an event")?)?;
    }
    Ok(order)
}

fn source_of(alloc: Global, tag: Tag) -> Result<String, AllocError> {
    match tag.writer() {
        Some(event) => format!(in alloc; "{}:{}", event.thread, event.step),
        None => format!(in alloc; "initial"),
    }
}

fn kept_of(alloc: Global, kept: &Kept) -> Result<String, AllocError> {
    match kept {
        Kept::Entry(entry) => {
            let source = source_of(alloc, entry.source)?;
            format!(in alloc;
                "entry {} {source} {} {}",
                entry.word, entry.first, entry.last
            )
        }
        Kept::Tail {
            steps,
            instr,
            end,
            taken,
        } => format!(in alloc; "tail {steps} {instr} {end:?} {taken}"),
        Kept::LastTag(tag) => {
            let source = source_of(alloc, *tag)?;
            format!(in alloc; "last {source}")
        }
    }
}

// A transcript, or a difference as `thread 0 entry 1: tail 3 4 Halted 0, not tail 2 4 Halted 0`.
fn answer_of(alloc: Global, replayed: &Replayed) -> Result<Vec<u8>, Memory> {
    match replayed {
        Replayed::Same(reports, values) => text_of(alloc, reports, values),
        Replayed::Differs(difference) => {
            let logged = kept_of(alloc, &difference.logged)?;
            let found = kept_of(alloc, &difference.found)?;
            let text = format!(in alloc;
                "thread {} entry {}: {logged}, not {found}\n",
                difference.thread, difference.entry
            )?;
            Ok(Vec::from_slice(alloc, text.as_bytes())?)
        }
    }
}

// The events before which their threads ended, each with the end, as the order is taken turn by turn, and the answer.
fn answer_by_turns(
    rt: &impl Abort,
    alloc: Global,
    program: &Program,
    log: &RunLog,
    order: &[Event],
) -> Result<(Vec<(Event, End)>, Vec<u8>), Fail> {
    assert_eq!(rt; program.threads_count(), log.threads().len());
    assert_eq!(rt; program.words().len(), log.finals().len());
    let mut replay = Replay::new(alloc, program, log)?;
    let mut shorts = Vec::new(alloc);
    for event in order {
        assert!(rt; usize::from(event.thread) < program.threads_count());
        match replay.turn(*event)? {
            Turned::Done => assert_eq!(rt; replay.steps_of(event.thread), event.step),
            Turned::Short(end) => shorts.push((*event, end))?,
        }
    }
    assert_eq!(rt; replay.turns(), order);
    let answer = answer_of(alloc, &replay.finish()?)?;
    Ok((shorts, answer))
}

// The answer of a replay by the whole order, which is that of its turns.
fn answer_by(
    rt: &impl Abort,
    alloc: Global,
    program: &Program,
    log: &RunLog,
    order: &[Event],
) -> Result<Vec<u8>, Fail> {
    assert_eq!(rt; program.threads_count(), log.threads().len());
    assert_eq!(rt; program.words().len(), log.finals().len());
    let answer = answer_of(alloc, &replay_order(alloc, program, log, order)?)?;
    Ok(answer)
}

fn recorded(rt: &impl Abort, alloc: Global, program: &Program, row: &Row) -> Result<RunLog, Fail> {
    let (steps, instr, entries) = row.limits;
    let limits = Limits::new(steps, instr, entries).ok_or("these are limits")?;
    let mut lists = Vec::new(alloc);
    lists.push(Vec::from_slice(alloc, row.inputs)?)?;
    for _ in 1..program.threads_count() {
        lists.push(Vec::new(alloc))?;
    }
    let inputs = Inputs::of(lists).ok_or("these are inputs")?;
    assert_eq!(rt; inputs.threads_count(), program.threads_count());
    assert!(rt;
        row.turns
            .iter()
            .all(|thread| usize::from(*thread) < program.threads_count())
    );
    let (log, _, _) = record_turns(alloc, program, &limits, &inputs, row.turns)?.into_parts();
    Ok(log)
}

#[test]
fn recorded_programs_are_replayed(rt: HostRuntime) -> Result<(), Fail> {
    let alloc = rt.alloc();
    for row in &ROWS {
        let program = program_of(&rt, alloc, row.program)?;
        let log = recorded(&rt, alloc, &program, row)?;
        let order = order_of(alloc, row.order)?;
        let expected = lines_of(alloc, row.text)?;
        let (shorts, answer) = answer_by_turns(&rt, alloc, &program, &log, &order)?;
        assert!(rt; shorts.is_empty(), "{}", row.program);
        assert_eq!(rt; answer.as_slice(), expected.as_slice());
        let answer = answer_by(&rt, alloc, &program, &log, &order)?;
        assert_eq!(rt; answer.as_slice(), expected.as_slice());
    }
    Ok(())
}

// A log that says that the thread took a third step, which read its write too: the turn to that step is short.
#[test]
fn turn_past_the_end_is_short(rt: HostRuntime) -> Result<(), Fail> {
    let alloc = rt.alloc();
    let program = program_of(&rt, alloc, OWN_WRITE.program)?;
    let mut bytes = write_log(alloc, &recorded(&rt, alloc, &program, &OWN_WRITE)?)?;
    assert!(rt; bytes.len() == 90);
    // The thread's steps, and the last step of its entry.
    bytes[59] = 3;
    bytes[89] = 3;
    let log = read_log(alloc, &bytes).ok().ok_or("this is a log")?;
    let order = order_of(alloc, "0:1 0:2 0:3")?;
    let (shorts, answer) = answer_by_turns(&rt, alloc, &program, &log, &order)?;
    assert_eq!(rt;
        shorts.as_slice(),
        [(Event { thread: 0, step: 3 }, End::Halted)].as_slice()
    );
    assert_eq!(rt;
        answer.as_slice(),
        b"thread 0 entry 0: entry 0 0:1 2 3, not entry 0 0:1 2 2\n".as_slice()
    );
    Ok(())
}
