// Arenas: recorded on threads and replayed at once.
ghost use Rattle.std.specs.Prelude.{◌≡◌, ℕ, List, length, IfOk, IfErr};
ghost use Rattle.arena_samples.specs.Arenas.{arena_of};
ghost use Rattle.arena_samples.specs.Summaries.{summary_of};
ghost use Rattle.light_top.specs.Arenas.{arena_limits, IsArenaLog, IsArenaEnd, Endless};
ghost use Rattle.light_top.specs.Statuses.{FailsBy};

use crate::Status;
use crate::bytes::Bytes;
use crate::solving::find_order;
use arena_samples::{arena, summary};
use dep_log::RunLog;
use history::history_log_law;
use light_base::Memory;
use machine::{Inputs, Limits, Program};
use recorder::{Gate, record};
use replayer::{Replayed, replay_order};
use std::alloc::Global;
use std::thread::Threads;

// The memory steps, instructions and log entries that a thread of an arena may have.
const STEPS: u32 = 1_000_000;

const INSTR: u32 = 10_000_000;

const ENTRIES: u32 = 16_384;

// The threads of an arena.
const THREADS: u8 = 8;

// The limits under which arenas run.
fn limits() -> Limits
    ensures { result ≡ arena_limits }
{
    match Limits::new(STEPS, INSTR, ENTRIES) {
        Some(limits) => limits,
        None => unreachable!(),
    }
}

// The log of one whole history of an arena.
fn record_arena<R: Threads + Sync, G: Gate>(
    rt: &R,
    alloc: Global,
    gate: &G,
    program: &Program,
) -> Result<RunLog, Memory>
    requires { length program.now.threads ≡ 8 }
    ensures { IfOk result (IsArenaLog program.now) }
{
    let inputs = Inputs::none(alloc, THREADS)?;
    let recorded = record(rt, alloc, program, &limits(), &inputs, gate)?;
    Ok(recorded.into_parts().0)
}

// The last values of the words, as the replay of a log gives them.
fn last_values(alloc: Global, program: &Program, log: &RunLog) -> Result<Vec<u32>, Status>
    requires { IsArenaLog program.now log.now }
    ensures ok { IfOk result (λ values. IsArenaEnd program.now values.items) }
    ensures err { IfErr result (FailsBy (Endless program.now)) }
{
    history_log_law();
    let order = match find_order(alloc, log, 0) {
        Ok(order) => order,
        Err(status) => return Err(status),
    };
    match replay_order(alloc, program, log, order.as_slice())? {
        Replayed::Same(_, values) => Ok(values),
        Replayed::Differs(_) => unreachable!(),
    }
}

/// Records the arena of a number on threads, replays the log, and tells of the end.
pub fn play_arena<R: Threads + Sync, G: Gate>(
    rt: &R,
    alloc: Global,
    gate: &G,
    number: u32,
) -> Result<Bytes, Status>
    ensures ok { IfOk result (λ text. (values : List ℕ) × IsArenaEnd (arena_of number) values × (text ≡ summary_of number values)) }
    ensures err { IfErr result (FailsBy (Endless (arena_of number))) }
{
    let program = arena(alloc, number)?;
    let log = record_arena(rt, alloc, gate, &program)?;
    let values = match last_values(alloc, &program, &log) {
        Ok(values) => values,
        Err(status) => return Err(status),
    };
    let text = summary(alloc, number, &values)?;
    Ok(Bytes::of(text))
}
