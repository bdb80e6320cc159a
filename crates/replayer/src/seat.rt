// One thread of a replay.
ghost use Rattle.std.specs.Prelude.{◌≡◌, ◌<◌, ◌≤◌, [], IfOk, OnErr, OnOk, length};
ghost use Rattle.replay_model.specs.Histories.{World};
ghost use Rattle.replay_model.specs.WellFormed.{IsWellFormed};
ghost use Rattle.machine.specs.Inputs.{inputs_of};
ghost use Rattle.machine.specs.Laws.{taken_in};
ghost use Rattle.replayer.specs.Seats.{IsSeat, IsAt, RunsTo, StopsBefore, RunsOut, HasEnded, seat_part};

use crate::difference::Side;
use crate::words::ReplayWords;
use dep_log::RunLog;
use light_base::Memory;
use machine::{End, Program};
use running_thread::{OpenGate, RunningThread, Setting};
use std::alloc::Global;

// The numbers that the log holds for a thread.
fn inputs_of(log: &RunLog, thread: u8) -> &[u32]
    requires { thread < length log.now.threads }
    ensures value { result.now ≡ inputs_of (taken_in log.now) thread }
    ensures short { length result.now ≤ 65536 }
    ensures rules { IsWellFormed log.now }
{
    log.threads()[usize::from(thread)].taken()
}

// A thread at its start.
pub(crate) fn new_seat(
    alloc: Global,
    program: &Program,
    log: &RunLog,
    thread: u8,
) -> Result<RunningThread, Memory>
    requires thread { thread < length program.now.threads }
    requires counted { length program.now.threads ≡ length log.now.threads }
    ensures { IfOk result (IsSeat program.now log.now thread []) }
{
    let on = Setting {
        program,
        limits: log.limits(),
        inputs: inputs_of(log, thread),
    };
    RunningThread::new(alloc, thread, &on)
}

/// Runs a thread up to and including this step, or to its end: how it ended, where that comes first. A thread that has
/// taken the step already does nothing. After an `Err` it has taken some first ones of these steps.
pub fn run_to(
    program: &Program,
    log: &RunLog,
    words: &mut ReplayWords,
    thread: &mut RunningThread,
    last: u32,
) -> Result<Option<End>, Memory>
    requires counted { length program.now.threads ≡ length log.now.threads }
    requires shown { (world : World) × IsAt program.now log.now world thread.old.core.thread words.old thread.old }
    ensures ok { IfOk result (λ end. RunsTo program.now log.now last words.old thread.old end words.new thread.new) }
    ensures err { OnErr result (StopsBefore program.now log.now last words.old thread.old words.new thread.new) }
{
    let on = Setting {
        program,
        limits: log.limits(),
        inputs: inputs_of(log, thread.core.thread()),
    };
    thread.run_to(&on, words, &OpenGate, last)
}

// Runs a thread to its end.
pub(crate) fn run_to_end(
    program: &Program,
    log: &RunLog,
    words: &mut ReplayWords,
    thread: &mut RunningThread,
) -> Result<(), Memory>
    requires counted { length program.now.threads ≡ length log.now.threads }
    requires shown { (world : World) × IsAt program.now log.now world thread.old.core.thread words.old thread.old }
    ensures { OnOk result (RunsOut program.now log.now words.old thread.old words.new thread.new) }
{
    let on = Setting {
        program,
        limits: log.limits(),
        inputs: inputs_of(log, thread.core.thread()),
    };
    thread.run_to_end(&on, words, &OpenGate)?;
    Ok(())
}

// What is compared of a thread, which has come to its end.
pub(crate) fn side(thread: &RunningThread) -> Side<'_>
    requires { HasEnded thread.now }
    ensures { result ≡ seat_part thread.now }
{
    let Some(end) = thread.core.end() else {
        unreachable!()
    };
    Side {
        entries: thread.log.entries(),
        steps: thread.core.steps(),
        instr: thread.core.instr(),
        end,
        taken: thread.core.taken(),
    }
}
