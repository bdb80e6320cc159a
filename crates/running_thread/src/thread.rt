// A thread that runs: its core, and the log of what it read.
ghost use Rattle.std.specs.Prelude.{◌≡◌, ℕ, ◌+◌, ◌<◌, ◌≤◌, true, false, All, List, Option, is_some, [], IfOk, OnErr, length};
ghost use Rattle.replay_model.specs.Steps.{Step, has_ended, reads, word_of};
ghost use Rattle.machine.specs.Programs.{code_of};
ghost use Rattle.machine.specs.Cores.{first_state, took};
ghost use Rattle.dep_log.specs.AccessLogs.{with_found};
ghost use Rattle.running_thread.specs.Running.{puts_out};

use crate::cells::word_of;
use crate::{Gate, StepWords};
use dep_log::DepLog;
use light_base::{Cell, Event, Memory};
use machine::{Core, End, Limits, Program, Want};
use std::alloc::Global;

/// What a thread runs: its program, the limits, and its input list.
#[derive(Clone, Copy)]
pub struct Setting<'a> {
    pub program: &'a Program,
    pub limits: &'a Limits,
    pub inputs: &'a [u32],
}

/// What came of a turn of one step.
#[derive(Clone, Copy, Debug)]
pub enum Moved {
    /// The thread took its step with this number, which wanted and found this.
    Took(u32, Want, Option<Cell>),
    /// It has ended, like this.
    Ended(End),
}

/// A thread as it runs.
#[derive(Debug, Drop)]
pub struct RunningThread {
    pub core: Core,
    pub log: DepLog,
}

// Tells the log and the core what the pending step, which has this number, found.
#[inline(always)]
fn tell(log: &mut DepLog, core: &mut Core, want: &Want, found: Option<Cell>, number: u32)
    requires pending { core.old.pending ≡ Some want.now }
    requires lives { has_ended want.now ≡ false }
    requires found { is_some found ≡ reads want.now }
    requires word { word_of want.now < log.old.words }
    requires number { 0 < number }
    requires later { All (λ entry. entry.last < number) log.old.entries }
    requires room { reads want.now ≡ true → length log.old.entries < log.old.limit }
    ensures words { log.new.words ≡ log.old.words }
    ensures limit { log.new.limit ≡ log.old.limit }
    ensures entries { log.new.entries ≡ with_found number (word_of want.now) found log.old.entries }
    ensures core { core.new ≡ took core.old found }
{
    match found {
        Some(cell) => {
            log.saw(word_of(want), cell.tag, number);
            core.found(cell);
        }
        None => core.stored(),
    }
}

impl RunningThread {
    ghost use Rattle.running_thread.specs.Threads.{IsThread, CanRun, MovesOn, StaysOn, RunsOn, StopsOn, EndsOn};

    /// A thread at its start.
    pub fn new(alloc: Global, thread: u8, on: &Setting) -> Result<RunningThread, Memory>
        requires thread { thread < length on.now.program.now.threads }
        requires inputs { length on.now.inputs.now ≤ 65536 }
        ensures is { IfOk result (IsThread on.now.program.now on.now.limits.now on.now.inputs.now thread []) }
        ensures core { IfOk result (λ made. made.core ≡ first_state thread) }
    {
        let words = on.program.words().len() as u16;
        Ok(RunningThread {
            core: Core::new(alloc, thread),
            log: DepLog::new(alloc, words, on.limits.entries())?,
        })
    }

    /// Takes the thread's next step on these words, and passes the gate before it; where it has ended, nothing changes there.
    /// After an `Err`, which comes only where the thread's code has an `out`, it has taken none.
    #[inline(always)]
    pub fn step<W: StepWords, G: Gate>(
        &mut self,
        on: &Setting,
        words: &mut W,
        gate: &G,
    ) -> Result<Moved, Memory>
        requires { CanRun W.ready on.now words.old self.old }
        ensures ok { IfOk result (λ moved. MovesOn W.ready W.takes on.now words.old self.old moved words.new self.new) }
        ensures err { OnErr result (StaysOn on.now self.old self.new) }
        ensures words { OnErr result (words.new ≡ words.old) }
        ensures memory { OnErr result (puts_out (code_of on.now.program.now self.old.core.thread) ≡ true) }
        ensures thread { self.new.core.thread ≡ self.old.core.thread }
    {
        let full = self.log.is_full();
        let want = self.core.advance(on.program, on.limits, on.inputs, full)?;
        if let Want::Ended(end) = want {
            return Ok(Moved::Ended(end));
        }
        let step = self.core.steps() + 1;
        let event = Event {
            thread: self.core.thread(),
            step,
        };
        gate.pass(event.thread, step);
        let wanted = want;
        let found = words.take(event, &want);
        let seen = found;
        tell(&mut self.log, &mut self.core, &want, found, step);
        Ok(Moved::Took(step, wanted, seen))
    }

    /// Runs the thread up to and including the step with this number, or to its end: how it ended, where that comes first.
    /// A thread that has taken the step already does nothing. After an `Err`, which comes only where the thread's code has an
    /// `out`, it has taken some first ones of these steps.
    pub fn run_to<W: StepWords, G: Gate>(
        &mut self,
        on: &Setting,
        words: &mut W,
        gate: &G,
        last: u32,
    ) -> Result<Option<End>, Memory>
        requires { CanRun W.ready on.now words.old self.old }
        ensures ok { IfOk result (λ end. RunsOn W.ready W.takes on.now last words.old self.old end words.new self.new) }
        ensures err { OnErr result (StopsOn W.ready W.takes on.now last words.old self.old words.new self.new) }
        ensures memory { OnErr result (puts_out (code_of on.now.program.now self.old.core.thread) ≡ true) }
    {
        for _step in self.core.steps()..last {
            if let Moved::Ended(end) = self.step(on, words, gate)? {
                return Ok(Some(end));
            }
        }
        Ok(None)
    }

    /// Runs the thread to its end, and answers how it ended.
    pub fn run_to_end<W: StepWords, G: Gate>(
        &mut self,
        on: &Setting,
        words: &mut W,
        gate: &G,
    ) -> Result<End, Memory>
        requires { CanRun W.ready on.now words.old self.old }
        ensures { IfOk result (λ end. EndsOn W.ready W.takes on.now words.old self.old end words.new self.new) }
    {
        // No thread takes more steps than the limit says.
        let last = on.limits.steps() + 1;
        match self.run_to(on, words, gate, last)? {
            Some(end) => Ok(end),
            None => unreachable!(),
        }
    }
}
