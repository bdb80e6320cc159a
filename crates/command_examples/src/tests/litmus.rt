// Litmus tests: two threads that meet at a barrier in each round, and then take a few steps on words of their own.
use super::contents::Content;
use super::rows::{call, store_of};
use light_base::MemStore;
use std::alloc::{AllocError, Global};
use std::process::Abort;
use std::test::Fail;
use std::thread::Threads;

const ROUNDS: usize = 100;

// Two threads of a hundred rounds each, which put out two values a round: the second comes so many outputs after the first, and the
// first of the next round so many after this one's. No order of the steps of a round has the forbidden values.
#[derive(Clone, Copy)]
pub struct Litmus {
    text: &'static str,
    apart: usize,
    stride: usize,
    forbidden: (u64, u64),
}

pub static LITMUS: [Litmus; 2] = [
    // Each writes its own word, and then reads the other one's (SB).
    Litmus {
        text: ".words 400/\
            .thread/set r10 1/set r14 400/\
            round: store r10 r12 2/wait: load r9 r12 3/jeq r9 r0 wait/\
            store r10 r12 0/load r1 r12 1/out r1/\
            addi r12 r12 4/jlt r12 r14 round/\
            .thread/set r10 1/set r14 400/\
            round: store r10 r12 3/wait: load r9 r12 2/jeq r9 r0 wait/\
            store r10 r12 1/load r1 r12 0/out r1/\
            addi r12 r12 4/jlt r12 r14 round/",
        apart: 100,
        stride: 1,
        forbidden: (0, 0),
    },
    // One writes a value and then a flag; the other reads the flag, and then the value (MP).
    Litmus {
        text: ".words 400/\
            .thread/set r10 1/set r14 400/\
            round: store r10 r12 2/wait: load r9 r12 3/jeq r9 r0 wait/\
            store r10 r12 0/store r10 r12 1/\
            addi r12 r12 4/jlt r12 r14 round/\
            .thread/set r10 1/set r14 400/\
            round: store r10 r12 3/wait: load r9 r12 2/jeq r9 r0 wait/\
            load r1 r12 1/load r2 r12 0/out r1/out r2/\
            addi r12 r12 4/jlt r12 r14 round/",
        apart: 1,
        stride: 2,
        forbidden: (1, 0),
    },
];

// The numbers that a transcript says were put out.
fn outputs_in(alloc: Global, text: &str) -> Result<Vec<u64>, AllocError> {
    let mut outputs = Vec::new(alloc);
    for line in text.lines() {
        if let Some(number) = line
            .strip_prefix("out ")
            .and_then(|digits| digits.parse().ok())
        {
            outputs.push(number)?;
        }
    }
    Ok(outputs)
}

// The two values of a round.
fn outcome_of(test: &Litmus, outputs: &[u64], round: usize) -> Option<(u64, u64)> {
    let first = round.checked_mul(test.stride)?;
    let second = first.checked_add(test.apart)?;
    Some((*outputs.get(first)?, *outputs.get(second)?))
}

// Records the program of an image on threads: no round has the forbidden values, and the log is replayed the same.
fn record<R: Abort + Threads + Sync>(
    rt: &R,
    alloc: Global,
    store: &mut MemStore,
    test: &Litmus,
) -> Result<(), Fail> {
    let (status, text) = call(rt, alloc, store, "record i l 268435455 1073741824 16384")?;
    assert!(rt; status.is_empty(), "{status}");
    let text = String::from_utf8(text)?;
    let outputs = outputs_in(alloc, text.as_str())?;
    assert_eq!(rt; outputs.len(), 2 * ROUNDS);
    for round in 0..ROUNDS {
        let outcome = outcome_of(test, &outputs, round);
        assert!(rt;
            outcome.is_some_and(|values| values != test.forbidden),
            "round {round}"
        );
    }
    let (status, replayed) = call(rt, alloc, store, "replay i l s 0")?;
    assert!(rt; status.is_empty(), "{status}");
    assert_eq!(rt; replayed.as_slice(), text.as_bytes());
    Ok(())
}

// Assembles a test, and records it three times.
pub fn play<R: Abort + Threads + Sync>(rt: &R, alloc: Global, test: &Litmus) -> Result<(), Fail> {
    let mut store = store_of(alloc, &[("t", Content::Text(test.text))])?;
    let (status, _) = call(rt, alloc, &mut store, "asm t i")?;
    assert!(rt; status.is_empty(), "{status}");
    for _ in 0..3 {
        record(rt, alloc, &mut store, test)?;
    }
    Ok(())
}
