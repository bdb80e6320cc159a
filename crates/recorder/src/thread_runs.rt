// One thread that runs to its end at shared words.
ghost use Rattle.std.specs.Prelude.{◌≡◌, ◌<◌, ◌≤◌, ◌⊎◌, IfOk, IfErr, length};
ghost use Rattle.machine.specs.Inputs.{most_inputs};
ghost use Rattle.tagged_words.specs.Hands.{IsOf, new_hand};
ghost use Rattle.recorder.specs.Running.{HasBegun, HasRun, PutsOut, TookNoStep};

use crate::Gate;
use crate::runner::Runner;
use dep_log::ThreadLog;
use light_base::Memory;
use machine::{Limits, Program, RunReport};
use std::alloc::Global;
use tagged_words::{Hand, Words};

/// A thread that has ended: its hand, its log, and what it reports.
#[derive(Drop)]
pub struct Finished {
    pub hand: Hand,
    pub log: ThreadLog,
    pub report: RunReport,
}

/// The hand of a thread for which no memory was found.
#[derive(Drop)]
pub struct Broken {
    pub hand: Hand,
}

/// Runs a thread to its end at the words, with its input list of at most 65,536 numbers. The steps of its hand are then
/// exactly the memory steps of the run that the log and the report describe; after an `Err` they are the first ones of such
/// a run.
///
/// The gate is passed before each memory step. All memory but for output is taken before the first of them: an `Err` comes
/// only where no step was taken, or the thread's code has an `out`.
pub fn run_thread<G: Gate>(
    alloc: Global,
    words: &Words,
    hand: Hand,
    program: &Program,
    limits: &Limits,
    inputs: &[u32],
    gate: &G,
) -> Result<Finished, Broken>
    requires fresh { hand ≡ new_hand words.now hand.thread }
    requires thread { hand.thread < length program.now.threads }
    requires words { length words.now.start.initial ≡ length program.now.words }
    requires inputs { length inputs.now ≤ most_inputs }
    ensures own { IfOk result (λ f. IsOf words.now f.hand × (f.hand.thread ≡ hand.thread)) }
    ensures run { IfOk result (λ f. HasRun program.now limits.now inputs.now hand.thread f.hand.steps f.log f.report) }
    ensures broken { IfErr result (λ b. IsOf words.now b.hand × (b.hand.thread ≡ hand.thread)) }
    ensures begun { IfErr result (λ b. HasBegun program.now limits.now inputs.now b.hand) }
    ensures memory { IfErr result (λ b. TookNoStep b.hand ⊎ PutsOut program.now hand) }
{
    // So it ends before it has taken as many steps as it is asked for.
    prove!(limits.steps() < u32::MAX);
    let mut runner = Runner::new(alloc, words, hand, program, limits, inputs)?;
    match runner.run(u32::MAX, gate) {
        Ok(_) => Ok(runner.finish()),
        Err(Memory) => Err(Broken {
            hand: runner.into_hand(),
        }),
    }
}

// What comes of a thread moves to the one that waits for it.
fn crosses(finished: Finished, broken: Broken) -> (Finished, Broken) {
    (is_moved(finished), is_moved(broken))
}

fn is_moved<T: Send>(value: T) -> T {
    value
}
