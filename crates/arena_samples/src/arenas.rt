// The arena programs.
ghost use Rattle.std.specs.Prelude.{◌≡◌, ◌+◌, ◌<◌, ◌≤◌, ◌^◌, ◌∷◌, [], ◌++◌, length, IfOk, OnOk};
ghost use Rattle.machine.specs.Programs.{code_lists};
ghost use Rattle.arena_samples.specs.Draws.{state_after};
ghost use Rattle.arena_samples.specs.Arenas.{move_from, move_in, move_code, instr, cas, moves_code, thread_code, arena_words, thread_codes, arena_of};

use crate::draws::Draws;
use light_base::Memory;
use machine::{Instr, Op, Program};
use std::alloc::{AllocError, Global};

const THREADS: u32 = 8;

const ROOMS: u32 = 4;

const MOVES: u32 = 16;

const TRIES: u32 = 1000;

const MINUS_ONE: u32 = 4_294_967_295;

// A room's words: its lock, which is free, and 20 points of each of its five players.
const ROOM: [u32; 6] = [0, 20, 20, 20, 20, 20];

// The word of a lock, and those of the player who loses a point and of the one who gets it.
#[derive(Clone, Copy)]
struct Move {
    lock: u32,
    from: u32,
    to: u32,
}

// The move that the next three draws choose: a room, a player, and how many places further on the other one stands.
#[tactic(auto, unfolding(crate::specs::Draws::state_after))]
fn next_move(draws: &mut Draws) -> Move
    ensures chosen { result ≡ move_from draws.old.state }
    ensures state { draws.new.state ≡ state_after draws.old.state 3 }
{
    let lock = 6 * (draws.draw() % ROOMS);
    let player = draws.draw() % 5;
    let further = draws.draw() % 4 + 1;
    Move {
        lock,
        from: lock + 1 + player,
        to: lock + 1 + (player + further) % 5,
    }
}

// An instruction with two registers and a number.
fn instr(op: Op, a: u8, b: u8, imm: u32) -> Instr
    ensures { result ≡ instr op a b imm }
{
    Instr {
        op,
        a,
        b,
        c: 0,
        imm,
    }
}

// Takes the lock of a move where it is free: the word 0 becomes register 2, and register 15 tells whether it did.
fn take_lock(lock: u32) -> Instr
    ensures { result ≡ cas 3 0 2 lock }
{
    Instr {
        op: Op::Cas,
        a: 3,
        b: 0,
        c: 2,
        imm: lock,
    }
}

// The instructions of a move, the first of which has this place.
#[tactic(auto, unfolding(crate::specs::Arenas::move_code))]
fn instrs_of(place: u32, chosen: Move) -> [Instr; 16]
    requires { place + 16 < 2 ^ 32 }
    ensures { result ≡ move_code place chosen }
{
    let again = place + 1;
    let free = place + 15;
    let skip = place + 16;
    [
        instr(Op::Const, 1, 0, TRIES),
        instr(Op::Jeq, 1, 0, skip),
        instr(Op::Addi, 1, 1, MINUS_ONE),
        instr(Op::Load, 3, 0, chosen.lock),
        instr(Op::Jne, 3, 0, again),
        take_lock(chosen.lock),
        instr(Op::Jne, 15, 2, again),
        instr(Op::Load, 4, 0, chosen.from),
        instr(Op::Out, 4, 0, 0),
        instr(Op::Jeq, 4, 0, free),
        instr(Op::Addi, 4, 4, MINUS_ONE),
        instr(Op::Store, 4, 0, chosen.from),
        instr(Op::Load, 5, 0, chosen.to),
        instr(Op::Addi, 5, 5, 1),
        instr(Op::Store, 5, 0, chosen.to),
        instr(Op::Store, 0, 0, chosen.lock),
    ]
}

// The code of the next thread.
fn next_code(alloc: Global, draws: &mut Draws) -> Result<Vec<Instr>, AllocError>
    ensures code { IfOk result (λ code. code.items ≡ thread_code draws.old.state) }
    ensures state { OnOk result (draws.new.state ≡ state_after draws.old.state 48) }
{
    let mut code = Vec::with_capacity(alloc, 257)?;
    code.push(instr(Op::Const, 2, 0, 1))?;
    for i in 0..MOVES {
        let chosen = next_move(draws);
        code.extend_from_slice(&instrs_of(1 + 16 * i, chosen))?;
    }
    Ok(code)
}

// The codes of all threads.
fn codes_of(alloc: Global, number: u32) -> Result<Vec<Vec<Instr>>, AllocError>
    ensures { IfOk result (λ codes. code_lists codes.items ≡ thread_codes number 8) }
{
    let mut draws = Draws { state: number };
    let mut codes = Vec::with_capacity(alloc, 8)?;
    for _ in 0..THREADS {
        codes.push(next_code(alloc, &mut draws)?)?;
    }
    Ok(codes)
}

// The initial values of all words.
fn words(alloc: Global) -> Result<Vec<u32>, AllocError>
    ensures { IfOk result (λ words. words.items ≡ arena_words) }
{
    let mut words = Vec::with_capacity(alloc, 24)?;
    for _ in 0..ROOMS {
        words.extend_from_slice(&ROOM)?;
    }
    Ok(words)
}

/// The arena program of a number: 8 threads, each with 16 moves, and 24 words.
///
/// Room k of 0 to 3 has the lock word 6k and its five players' words from 6k + 1 on, each with 20 points at first. Three
/// draws choose a move: room, player, and the other player, who is another one. A thread takes the room's lock, at most
/// 1,000 times trying, puts the player's points out, moves one point to the other player where there is one, and
/// lets the lock go. Since a lock keeps other threads out, the points stay 400 in whatever order the threads run.
pub fn arena(alloc: Global, number: u32) -> Result<Program, Memory>
    ensures { IfOk result (λ program. program ≡ arena_of number) }
{
    let words = words(alloc)?;
    let codes = codes_of(alloc, number)?;
    match Program::of(words, codes) {
        Ok(program) => Ok(program),
        Err(_) => unreachable!(),
    }
}
