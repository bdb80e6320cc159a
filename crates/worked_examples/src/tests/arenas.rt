// The arena of 7 beside a text of it, its first move written out, and what its summary says.
use super::programs::{lines_of, program_of};
use arena_samples::{LOST_UPDATE, MESSAGE_PASSING, STORE_BUFFER, TWO_FLAGS, arena, summary};
use assembler::list;
use light_base::put_decimal;
use machine::{Inputs, Limits, Program};
use recorder::record_turns;
use std::alloc::{AllocError, Global};
use std::test::Fail;

// The moves of the arena of 7, a line for each thread: a move is its room, the player who loses a point and the player
// who gets it, each a digit. They are computed by a model of the draws written apart from the program.
const MOVES: &str = "\
012 234 104 334 032 004 314 004 241 040 134 034 242 324 012 324
223 212 241 320 342 301 001 001 003 040 243 021 340 203 241 040
023 013 140 330 301 041 324 210 101 232 004 114 131 034 014 031
030 120 024 130 343 202 202 001 023 220 334 021 320 014 214 234
240 220 020 013 240 014 123 313 010 220 113 323 013 243 014 121
001 143 320 234 042 134 331 041 010 214 201 303 330 042 004 143
203 102 312 034 334 324 324 301 340 121 034 304 223 220 140 012
232 121 110 013 332 202 332 334 104 120 324 332 110 214 231 110";

const WORDS: &str =
    ".words 24/.init 1 20/.init 2 20/.init 3 20/.init 4 20/.init 5 20/.init 7 20/.init 8 20/.init 9 20/.init 10 20/.init 11 20/.init 13 20/.init 14 20/.init 15 20/.init 16 20/.init 17 20/.init 19 20/.init 20 20/.init 21 20/.init 22 20/.init 23 20/";

// A move in a thread's text, where N stands for the number of the move, and L, F and T for the words of the lock, of the
// player who loses a point and of the one who gets it.
const MOVE: &str =
    "set r1 1000/tryN: jeq r1 r0 skipN/addi r1 r1 4294967295/load r3 r0 L/jne r3 r0 tryN/cas r3 r0 r2 L/jne r15 r2 tryN/load r4 r0 F/out r4/jeq r4 r0 freeN/addi r4 r4 4294967295/store r4 r0 F/load r5 r0 T/addi r5 r5 1/store r5 r0 T/freeN: store r0 r0 L/skipN:/";

// The canonical text up to the end of the first move.
const FIRST_MOVE: &str =
    ".thread/set r2 1/set r1 1000/jeq r1 r0 17/addi r1 r1 4294967295/load r3 r0 0/jne r3 r0 2/cas r3 r0 r2 0/jne r15 r2 2/load r4 r0 2/out r4/jeq r4 r0 16/addi r4 r4 4294967295/store r4 r0 2/load r5 r0 3/addi r5 r5 1/store r5 r0 3/store r0 r0 0/";

fn digit(text: &[u8], at: usize) -> u8 {
    match text.get(at) {
        Some(b) if b.is_ascii_digit() => *b - b'0',
        _ => 0,
    }
}

// Appends a move, of which this is the number in its thread.
fn put_move(text: &mut Vec<u8>, number: u64, chosen: &[u8]) -> Result<(), Fail> {
    let lock = 6 * u64::from(digit(chosen, 0));
    for b in MOVE.as_bytes() {
        match *b {
            b'N' => put_decimal(text, number)?,
            b'L' => put_decimal(text, lock)?,
            b'F' => put_decimal(text, lock + 1 + u64::from(digit(chosen, 1)))?,
            b'T' => put_decimal(text, lock + 1 + u64::from(digit(chosen, 2)))?,
            other => text.push(other)?,
        }
    }
    Ok(())
}

// The arena of 7 as text, in which a slash stands for the end of a line.
fn arena_text(alloc: Global) -> Result<String, Fail> {
    let mut text = Vec::from_slice(alloc, WORDS.as_bytes())?;
    for thread in MOVES.split('\n') {
        text.extend_from_slice(b".thread/set r2 1/")?;
        let mut number: u64 = 0;
        for chosen in thread.split(' ') {
            put_move(&mut text, number, chosen.as_bytes())?;
            number = number.saturating_add(1);
        }
    }
    Ok(String::from_utf8(text).map_err(|_| "text")?)
}

#[test]
fn the_arena_of_7_is_its_text(rt: HostRuntime) -> Result<(), Fail> {
    let alloc = rt.alloc();
    let program = arena(alloc, 7)?;
    let listed = list(alloc, &program)?;
    let text = arena_text(alloc)?;
    let written = program_of(&rt, alloc, text.as_str())?;
    assert_eq!(rt; listed.as_slice(), list(alloc, &written)?.as_slice());
    let start = lines_of(alloc, WORDS)?;
    assert!(rt; listed.as_slice().starts_with(&start));
    let rest = listed.as_slice().split_at(start.len()).1;
    assert!(rt; rest.starts_with(&lines_of(alloc, FIRST_MOVE)?));
    assert_eq!(rt; program.threads_count(), 8);
    for thread in 0..8 {
        assert_eq!(rt; program.threads(thread).len(), 257);
    }
    Ok(())
}

const SUMMARY: &str = "arena 7 threads 8 words 24 moves 128/points 400/replay same/";

// The last values where the threads take turns in rounds.
fn values_at_end(alloc: Global, program: &Program) -> Result<Vec<u32>, Fail> {
    let limits = Limits::new(1_000_000, 10_000_000, 16_384).ok_or("limits")?;
    let count = program.threads_count();
    let inputs = Inputs::none(alloc, count as u8)?;
    let recorded = record_turns(alloc, program, &limits, &inputs, &[])?;
    Ok(Vec::from_slice(alloc, recorded.finals())?)
}

#[test]
fn the_points_of_an_arena_are_summed(rt: HostRuntime) -> Result<(), Fail> {
    let alloc = rt.alloc();
    let values = values_at_end(alloc, &arena(alloc, 7)?)?;
    assert_eq!(rt; values.len(), 24);
    let text = summary(alloc, 7, &values)?;
    assert_eq!(rt; text.as_slice(), lines_of(alloc, SUMMARY)?.as_slice());
    Ok(())
}

// The samples, with what their texts are. A slash stands for the end of a line.
static SAMPLES: [(&str, &str); 4] = [
    (
        STORE_BUFFER,
        ".words 2/.thread/set r1 1/store r1 r0 0/load r2 r0 1/out r2/.thread/set r1 1/store r1 r0 1/load r2 r0 0/out r2/",
    ),
    (
        MESSAGE_PASSING,
        ".words 2/.thread/set r1 42/store r1 r0 0/set r2 1/store r2 r0 1/.thread/wait: load r1 r0 1/jeq r1 r0 wait/load r2 r0 0/out r2/",
    ),
    (
        LOST_UPDATE,
        ".words 1/.thread/load r1 r0 0/addi r1 r1 1/store r1 r0 0/out r1/.thread/load r1 r0 0/addi r1 r1 1/store r1 r0 0/out r1/",
    ),
    (
        TWO_FLAGS,
        ".words 2/.thread/set r1 1/store r1 r0 0/wait: load r2 r0 1/jeq r2 r0 wait/.thread/set r1 1/store r1 r0 1/wait: load r2 r0 0/jeq r2 r0 wait/",
    ),
];

#[test]
fn samples_have_their_texts(rt: HostRuntime) -> Result<(), Fail> {
    for (sample, text) in &SAMPLES {
        assert_eq!(rt; sample.as_bytes(), lines_of(rt.alloc(), text)?.as_slice());
    }
    Ok(())
}
