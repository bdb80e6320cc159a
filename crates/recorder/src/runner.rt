// A thread that runs at shared words.
ghost use Rattle.std.specs.Prelude.{◌≡◌, ◌<◌, ◌≤◌, IfOk, IfErr, OnErr, length};
ghost use Rattle.machine.specs.Inputs.{most_inputs};
ghost use Rattle.tagged_words.specs.Hands.{new_hand};
ghost use Rattle.recorder.specs.Running.{PutsOut, new_runner};

use crate::hand_words::HandWords;
use crate::{Broken, Finished};
use light_base::Memory;
use machine::{Limits, Program};
use running_thread::{Gate, RunningThread, Setting};
use std::alloc::Global;
use std::marker::Model;
use tagged_words::{Hand, Words};

/// A thread as it runs: what it runs, its core with its log, and its hand at the words.
#[derive(Drop)]
pub(crate) struct Runner<'a> {
    on: Setting<'a>,
    thread: RunningThread,
    at: HandWords<'a>,
    // Room for the input numbers that it takes.
    taken: Vec<u32>,
}

impl<'a> Model for Runner<'a> {
    ghost use Rattle.recorder.specs.Running.{Running, IsRunning, runner_of};

    ghost Value = { Running };

    ghost view = { λ r. runner_of r.on.program.now r.on.limits.now r.on.inputs.now r.thread.core r.at.hand };

    ghost invariant = { λ r. IsRunning r.on.program.now r.on.limits.now r.on.inputs.now r.thread r.at r.taken.items };
}

impl<'a> Runner<'a> {
    ghost use Rattle.recorder.specs.Running.{HasBegun, HasRun, IsAtEnd, IsSame};
    ghost use Rattle.recorder.specs.Grouped.{RanFor};

    // A thread at its start, with all the memory that its steps need.
    pub(crate) fn new(
        alloc: Global,
        words: &'a Words,
        hand: Hand,
        program: &'a Program,
        limits: &'a Limits,
        inputs: &'a [u32],
    ) -> Result<Runner<'a>, Broken>
        requires fresh { hand ≡ new_hand words.now hand.thread }
        requires thread { hand.thread < length program.now.threads }
        requires words { length words.now.start.initial ≡ length program.now.words }
        requires inputs { length inputs.now ≤ most_inputs }
        ensures ok { IfOk result (λ r. r ≡ new_runner program.now limits.now inputs.now hand) }
        ensures err { IfErr result (λ broken. broken.hand ≡ hand) }
    {
        let on = Setting {
            program,
            limits,
            inputs,
        };
        let Ok(thread) = RunningThread::new(alloc, hand.thread(), &on) else {
            return Err(Broken { hand });
        };
        let Ok(taken) = Vec::from_slice(alloc, inputs) else {
            return Err(Broken { hand });
        };
        let at = HandWords {
            words,
            hand,
            loaded: None,
        };
        Ok(Runner {
            on,
            thread,
            at,
            taken,
        })
    }

    // Runs for so many memory steps, or up to the end where that comes first. Whether it goes on.
    pub(crate) fn run<G: Gate>(&mut self, steps: u32, gate: &G) -> Result<bool, Memory>
        requires { 1 ≤ steps }
        ensures same { IsSame self.old self.new }
        ensures ok { IfOk result (λ goes_on. RanFor self.old goes_on steps self.new) }
        ensures err { OnErr result (PutsOut self.old.program self.old.hand) }
    {
        let last = self.thread.core.steps().saturating_add(steps);
        let end = self.thread.run_to(&self.on, &mut self.at, gate, last)?;
        Ok(end.is_none())
    }

    // What comes of a thread that has ended.
    pub(crate) fn finish(self) -> Finished
        requires { IsAtEnd self }
        ensures hand { result.hand ≡ self.entry.hand }
        ensures run { HasRun self.entry.program self.entry.limits self.entry.list self.entry.hand.thread self.entry.hand.steps result.log result.report }
    {
        let Runner {
            on: _,
            thread,
            at,
            mut taken,
        } = self;
        let RunningThread { core, log } = thread;
        let HandWords {
            words: _,
            hand,
            loaded: _,
        } = at;
        taken.truncate(core.taken() as usize);
        let report = core.report();
        let log = log.finish(report.steps(), report.instr(), report.end(), taken);
        Finished { hand, log, report }
    }

    // Gives the hand back.
    pub(crate) fn into_hand(self) -> Hand
        ensures hand { result ≡ self.entry.hand }
        ensures begun { HasBegun self.entry.program self.entry.limits self.entry.list result }
    {
        let Runner {
            on: _,
            thread: _,
            at,
            taken: _,
        } = self;
        let HandWords {
            words: _,
            hand,
            loaded: _,
        } = at;
        hand
    }
}
