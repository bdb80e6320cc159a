// A replay that stops at a step.
ghost use Rattle.std.specs.Prelude.{◌≡◌, ◌<◌, ◌≤◌, IfOk, length};
ghost use Rattle.replay_model.specs.Logs.{thread_of};
ghost use Rattle.replay_model.specs.Orders.{Respects};
ghost use Rattle.stopper.specs.Stopping.{IsStopAt, TellsUnlike, IsAnswer, IsAsItRan, PlaysOut, IsShownOf};

use crate::cut::cut_of;
use crate::play::{Plan, go_to_numbers, take_turns};
use crate::stray::{Stray, first_stray};
use dep_log::RunLog;
use light_base::{Event, Memory};
use machine::Program;
use replayer::{ReplayWords, opening_kept, opening_seats};
use running_thread::RunningThread;
use running_thread::cells::opening_cells;
use std::alloc::Global;
use std::marker::Model;

/// How a thread stands right after a memory step, and how far the threads were played for it.
#[derive(Debug, Drop)]
pub struct Snap {
    instr: u32,
    registers: [u32; 16],
    ran: Vec<u32>,
}

impl Model for Snap {
    ghost use Rattle.stopper.specs.Snaps.{SnapValue};

    ghost Value = { SnapValue };

    ghost view = { λ s. record { instr = s.instr; registers = s.registers; ran = s.ran.items } };
}

impl Snap {
    /// How many instructions the thread has finished.
    pub fn instr(&self) -> u32
        ensures { result ≡ self.now.instr }
    {
        self.instr
    }

    /// The values of its registers.
    pub fn registers(&self) -> &[u32; 16]
        ensures { result.now ≡ self.now.registers }
    {
        &self.registers
    }

    /// For each thread how many memory steps were played.
    pub fn ran(&self) -> &[u32]
        ensures { result.now ≡ self.now.ran }
    {
        &self.ran
    }
}

/// What comes of a replay that stops at a step.
#[derive(Debug, Drop)]
pub enum Stopped {
    /// The step was taken: how its thread stands right after it.
    At(Snap),
    /// The threads do not take the steps that the log tells of: what is amiss first.
    Strays(Stray),
}

// Plays each thread up to its number in the cut.
fn play(alloc: Global, plan: &Plan, order: &[Event]) -> Result<Vec<RunningThread>, Memory>
    requires threads { length plan.now.program.now.threads ≡ length plan.now.log.now.threads }
    requires words { length plan.now.program.now.words ≡ length plan.now.log.now.last_tags }
    requires numbers { length plan.now.numbers.now ≡ length plan.now.log.now.threads }
    ensures { IfOk result (λ seats. PlaysOut plan.now order.now seats.items) }
{
    let cells = opening_cells(alloc, plan.program.words())?;
    let kept = opening_kept(alloc, plan.log, plan.program.threads_count() as u8)?;
    let mut seats = opening_seats(alloc, plan.program, plan.log)?;
    let mut words = ReplayWords {
        cells,
        kept,
        notes: None,
    };
    take_turns(plan, order, &mut words, &mut seats)?;
    go_to_numbers(plan, &mut words, &mut seats)?;
    Ok(seats)
}

// What is shown of a thread that has come so far; before its first step no local instruction was run.
fn snap_of(seat: &RunningThread, ran: Vec<u32>) -> Snap
    ensures { IsShownOf seat.now ran.items result }
{
    if seat.core.steps() == 0 {
        return Snap {
            instr: 0,
            registers: [0; 16],
            ran,
        };
    }
    Snap {
        instr: seat.core.instr(),
        registers: *seat.core.registers(),
        ran,
    }
}

// What comes of it, by the threads at the end.
fn answer(
    alloc: Global,
    log: &RunLog,
    thread: u8,
    numbers: Vec<u32>,
    seats: &[RunningThread],
) -> Result<Stopped, Memory>
    requires thread { thread < length log.now.threads }
    requires seats { length seats.now ≡ length log.now.threads }
    requires numbers { length numbers.items ≡ length log.now.threads }
    ensures { IfOk result (IsAnswer log.now thread numbers.items seats.now) }
{
    match first_stray(alloc, log, &numbers, seats)? {
        Some(stray) => Ok(Stopped::Strays(stray)),
        None => Ok(Stopped::At(snap_of(&seats[usize::from(thread)], numbers))),
    }
}

/// Replays a program by a log of as many threads and words up to a memory step of a thread, and nothing that the step
/// does not need: each thread takes the turns of an order that respects the log, but none goes further than its number
/// in the cut of the step. The step is one that the log has, or 0, which is before the first one: there no instruction
/// was run.
///
/// `At` exactly where each thread takes its steps up to its number and sees what the log says that it sees by then: how
/// the thread asked for stands right after its step. The one error is want of memory.
pub fn stop_at(
    alloc: Global,
    program: &Program,
    log: &RunLog,
    order: &[Event],
    thread: u8,
    step: u32,
) -> Result<Stopped, Memory>
    requires threads { length program.now.threads ≡ length log.now.threads }
    requires words { length program.now.words ≡ length log.now.last_tags }
    requires thread { thread < length log.now.threads }
    requires step { step ≤ (thread_of log.now thread).steps }
    requires order { Respects log.now order.now }
    ensures stopped { IfOk result (IsStopAt program.now log.now order.now thread step) }
    ensures unlike { IfOk result TellsUnlike }
    // Where runs fit the log it does not stray, and the thread stands as it did right after this step of its run.
    ensures ran { IfOk result (IsAsItRan program.now log.now thread step) }
{
    let numbers = cut_of(alloc, log, thread, step)?;
    let plan = Plan {
        program,
        log,
        numbers: &numbers,
    };
    let seats = play(alloc, &plan, order)?;
    answer(alloc, log, thread, numbers, &seats)
}
