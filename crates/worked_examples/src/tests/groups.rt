// Threads in groups. On one worker their turns are fully determined, and are those of a history by turns.
use super::programs::program_of;
use super::recordings::{self, OTHER_WRITER, ROWS, Row, TWO_FLAGS, check};
use machine::{Inputs, Limits};
use recorder::{
    BrokenGroup, Finished, OpenGate, Recorded, record_turns, record_workers, run_group,
};
use std::alloc::Global;
use std::process::Abort;
use std::test::Fail;
use std::thread::Threads;
use tagged_words::Words;
use transcript::text_of;

// The same flags, where each thread may take two steps at once.
const TWO_FLAGS_BY_TWO: Row = Row {
    entries: "1 initial 2 2;1 1:1 3 3;/0 0:1 2 2;/",
    text: "thread 0 halted steps 3 instr 6/thread 1 halted steps 2 instr 4/word 0 1/word 1 1/",
    ..TWO_FLAGS
};

// What one worker records, on which the threads take so many steps at a time.
fn recorded<R: Threads + Sync + Abort>(
    rt: &R,
    alloc: Global,
    row: &Row,
    slice: u32,
) -> Result<Recorded, Fail> {
    let program = program_of(rt, alloc, row.program)?;
    let (steps, instr, entries) = row.limits;
    let limits = Limits::new(steps, instr, entries).ok_or("these are limits")?;
    let inputs = Inputs::none(alloc, program.threads_count() as u8)?;
    assert!(rt; 0 < slice);
    Ok(record_workers(rt, alloc, &program, &limits, &inputs, 1, slice, &OpenGate)?)
}

#[test]
fn one_worker_takes_turns(rt: HostRuntime) -> Result<(), Fail> {
    let alloc = rt.alloc();
    let by_one = recorded(&rt, alloc, &TWO_FLAGS, 1)?;
    check(&rt, alloc, &TWO_FLAGS, &by_one)?;
    let by_two = recorded(&rt, alloc, &TWO_FLAGS_BY_TWO, 2)?;
    check(&rt, alloc, &TWO_FLAGS_BY_TWO, &by_two)?;
    // A compare-exchange is cut between its two steps.
    let cut = recorded(&rt, alloc, &OTHER_WRITER, 1)?;
    check(&rt, alloc, &OTHER_WRITER, &cut)
}

// Rounds in which each thread takes so many steps, as many as a thread may take steps.
fn rounds(alloc: Global, threads: u8, most: u32, slice: u32) -> Result<Vec<u8>, Fail> {
    let mut order = Vec::new(alloc);
    for _ in 0..most {
        for thread in 0..threads {
            for _ in 0..slice {
                order.push(thread)?;
            }
        }
    }
    Ok(order)
}

// The history in which each thread takes so many steps at a time.
fn by_turns(rt: &impl Abort, alloc: Global, row: &Row, slice: u32) -> Result<Recorded, Fail> {
    let program = program_of(rt, alloc, row.program)?;
    let (steps, instr, entries) = row.limits;
    let limits = Limits::new(steps, instr, entries).ok_or("these are limits")?;
    let count = program.threads_count();
    let inputs = Inputs::none(alloc, count as u8)?;
    let order = rounds(alloc, count as u8, steps, slice)?;
    assert!(rt; order.iter().all(|thread| usize::from(*thread) < count));
    Ok(record_turns(alloc, &program, &limits, &inputs, &order)?)
}

// Both say the same of each thread and word.
fn agree(rt: &impl Abort, alloc: Global, one: &Recorded, other: &Recorded) -> Result<(), Fail> {
    let text = text_of(alloc, one.reports(), one.finals())?;
    let expected = text_of(alloc, other.reports(), other.finals())?;
    assert_eq!(rt; text.as_slice(), expected.as_slice());
    assert_eq!(rt;
        recordings::entries_of(alloc, one)?.as_str(),
        recordings::entries_of(alloc, other)?.as_str()
    );
    assert_eq!(rt;
        recordings::last_tags_of(alloc, one)?.as_str(),
        recordings::last_tags_of(alloc, other)?.as_str()
    );
    Ok(())
}

#[test]
fn one_worker_plays_a_history_by_turns(rt: HostRuntime) -> Result<(), Fail> {
    let alloc = rt.alloc();
    for row in &ROWS {
        for slice in 1..8 {
            let recorded = recorded(&rt, alloc, row, slice)?;
            let expected = by_turns(&rt, alloc, row, slice)?;
            agree(&rt, alloc, &recorded, &expected)?;
        }
    }
    Ok(())
}

// A thread reads the word and then puts 7 in the place of what stands there; another one puts its input number there.
const EXCHANGES: &str =
    ".words 1/.thread/load r1 r0 0/set r2 7/xchg r2 r0 0/out r2/.thread/in r1/xchg r1 r0 0/out r1";

// What a thread put out, how many steps its hand took, and the input numbers in its log.
fn is_told(finished: &Finished, output: &[u32], steps: u32, taken: &[u32]) -> bool {
    finished.report.output() == output
        && finished.hand.steps() == steps
        && finished.log.taken() == taken
}

// Want of memory gives all hands back, so many.
fn no_memory(rt: &impl Abort, broken: BrokenGroup, hands: usize) -> Result<(), Fail> {
    assert_eq!(rt; broken.hands().len(), hands);
    assert_eq!(rt; broken.into_parts().len(), hands);
    Err("no memory".into())
}

// What comes of a group stands in the order of its hands. The second thread's step falls between the two of the first.
#[test]
fn a_group_takes_turns(rt: HostRuntime) -> Result<(), Fail> {
    let alloc = rt.alloc();
    let program = program_of(&rt, alloc, EXCHANGES)?;
    let limits = Limits::new(100, 100, 100).ok_or("these are limits")?;
    let lists = vec![in alloc; Vec::new(alloc), vec![in alloc; 9]?]?;
    let inputs = Inputs::of(lists).ok_or("these are inputs")?;
    assert_eq!(rt; (program.threads_count(), program.words().len()), (2, 1));
    let (words, hands) = Words::open(alloc, program.words(), 2)?;
    match run_group(
        alloc, &words, hands, &program, &limits, &inputs, 1, &OpenGate,
    ) {
        Ok(all) => {
            let [first, second] = all.as_slice() else {
                return Err("two threads".into());
            };
            assert!(rt; is_told(first, &[9], 2, &[]) && is_told(second, &[0], 1, &[9]));
            Ok(())
        }
        Err(broken) => no_memory(&rt, broken, 2),
    }
}

#[test]
fn no_hands_are_a_group(rt: HostRuntime) -> Result<(), Fail> {
    let alloc = rt.alloc();
    let program = program_of(&rt, alloc, EXCHANGES)?;
    let limits = Limits::new(100, 100, 100).ok_or("these are limits")?;
    let inputs = Inputs::none(alloc, 2)?;
    assert_eq!(rt; (program.threads_count(), program.words().len()), (2, 1));
    let (words, _) = Words::open(alloc, program.words(), 2)?;
    let none = Vec::new(alloc);
    match run_group(
        alloc, &words, none, &program, &limits, &inputs, 1, &OpenGate,
    ) {
        Ok(all) => {
            assert!(rt; all.is_empty());
            Ok(())
        }
        Err(broken) => no_memory(&rt, broken, 0),
    }
}
