// What a plain machine keeps of one thread.
ghost use Rattle.std.specs.Prelude.{◌≡◌, ◌<◌, ◌≤◌, [], option_and_then, IsSome, IfOk, OnErr, length};
ghost use Rattle.replay_model.specs.Steps as steps;
ghost use Rattle.machine.specs.Cores.{end_of, report_of};

use crate::plain::Stepped;
use crate::words::PlainWords;
use light_base::{Cell, Memory};
use machine::{Inputs, Limits, Program, RunReport};
use replay_model::{Access, Want};
use running_thread::cells::{word_of, written};
use running_thread::{Moved, OpenGate, RunningThread, Setting};
use std::alloc::Global;

/// One thread: as it runs, and its steps as they are told.
#[derive(Drop)]
pub(crate) struct Seat {
    pub(crate) thread: RunningThread,
    pub(crate) accesses: Vec<Access>,
}

// A step with this number as it is told.
fn access_of(step: u32, want: &Want, found: Option<Cell>) -> Access
    ensures { result ≡ steps.access_of step (record { want = want.now; found = found }) }
{
    let wrote = written(want, &found);
    Access {
        step,
        word: word_of(want),
        saw: found,
        wrote,
    }
}

impl Seat {
    ghost use Rattle.history.specs.Playing.{run_core, IsSeat, CanStep, StepsOn, StaysOn};

    // A thread at its start.
    pub(crate) fn new(alloc: Global, thread: u8, on: &Setting) -> Result<Seat, Memory>
        requires thread { thread < length on.now.program.now.threads }
        requires inputs { length on.now.inputs.now ≤ 65536 }
        ensures { IfOk result (IsSeat on.now.program.now on.now.limits.now on.now.inputs.now thread []) }
    {
        Ok(Seat {
            thread: RunningThread::new(alloc, thread, on)?,
            accesses: Vec::new(alloc),
        })
    }

    // Takes the thread's next step; where it has ended, nothing changes there. After an `Err` it has taken none.
    pub(crate) fn step(&mut self, on: &Setting, words: &mut PlainWords) -> Result<Stepped, Memory>
        requires { CanStep on.now words.old self.old }
        ensures ok { IfOk result (λ stepped. StepsOn on.now words.old self.old stepped words.new self.new) }
        ensures err { OnErr result (StaysOn on.now self.old self.new) }
        ensures words { OnErr result (words.new ≡ words.old) }
    {
        self.accesses.reserve(1)?;
        match self.thread.step(on, words, &OpenGate)? {
            Moved::Took(step, want, found) => {
                let access = access_of(step, &want, found);
                let told = access;
                self.accesses.push_reserved(access);
                Ok(Stepped::Took(told))
            }
            Moved::Ended(end) => Ok(Stepped::Ended(end)),
        }
    }

    // How the thread ended, and what it did. A loop of local instructions is fastest in a function of its own.
    #[inline(never)]
    pub(crate) fn into_report(
        self,
        program: &Program,
        limits: &Limits,
        inputs: &Inputs,
    ) -> Result<RunReport, Memory>
        requires thread { self.thread.core.thread < length program.now.threads }
        requires listed { length inputs.now ≡ length program.now.threads }
        requires ended { IsSome (option_and_then end_of (run_core program.now limits.now inputs.now self).pending) }
        ensures { IfOk result (λ report. report ≡ report_of (run_core program.now limits.now inputs.now self)) }
    {
        let Seat {
            thread,
            accesses: _,
        } = self;
        let RunningThread { mut core, log } = thread;
        let full = log.is_full();
        let list = inputs.threads(usize::from(core.thread()));
        core.advance(program, limits, list, full)?;
        Ok(core.report())
    }
}
