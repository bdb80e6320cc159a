// Recording on one thread, by turns.
ghost use Rattle.std.specs.Prelude.{◌≡◌, ◌<◌, [], ◌∷◌, All, IfOk, OnOk, length};
ghost use Rattle.machine.specs.Runs.{follow_of};
ghost use Rattle.replay_model.specs.RunLogs.{last_tags};
ghost use Rattle.history.specs.Histories.{IsHistory};
ghost use Rattle.history.specs.Played.{after_turns};
ghost use Rattle.recorder.specs.Records.{recorded_of};

use crate::Recorded;
use crate::entries::all_entries;
use crate::thread_logs::thread_logs;
use dep_log::RunLog;
use history::Plain;
use light_base::{Cell, Memory, Tag};
use machine::{Inputs, Limits, Program};
use std::alloc::Global;

/// Runs a program with its inputs on one thread and records its history: a step of each thread named, in that order, and
/// then rounds in which the threads 0, 1, 2 and so on take one step each, until every thread has ended. Ended threads are
/// passed over.
pub fn record_turns(
    alloc: Global,
    program: &Program,
    limits: &Limits,
    inputs: &Inputs,
    order: &[u8],
) -> Result<Recorded, Memory>
    requires listed { length inputs.now ≡ length program.now.threads }
    requires threads { All (λ thread. thread < length program.now.threads) order.now }
    ensures { IfOk result (λ recorded. recorded ≡ recorded_of program.now limits.now inputs.now (follow_of program.now limits.now inputs.now order.now)) }
{
    let mut plain = Plain::new(alloc, program, *limits, inputs)?;
    follow(&mut plain, order)?;
    plain.turns()?;
    record(alloc, program, limits, inputs, plain)
}

// Takes a turn of each thread named; ended ones are passed over.
fn follow(plain: &mut Plain, order: &[u8]) -> Result<(), Memory>
    requires { All (λ thread. thread < length plain.old.program.threads) order.now }
    ensures { OnOk result (plain.new ≡ after_turns plain.old order.now) }
{
    for thread in order {
        turn(plain, *thread)?;
    }
    Ok(())
}

// A turn of one thread.
fn turn(plain: &mut Plain, thread: u8) -> Result<(), Memory>
    requires { thread < length plain.old.program.threads }
    ensures { OnOk result (plain.new ≡ after_turns plain.old (thread ∷ [])) }
{
    match plain.step(thread) {
        Ok(_) => Ok(()),
        Err(refused) => Err(refused),
    }
}

// What is recorded of a machine that has played a whole history.
fn record(
    alloc: Global,
    program: &Program,
    limits: &Limits,
    inputs: &Inputs,
    plain: Plain,
) -> Result<Recorded, Memory>
    requires program { plain.program ≡ program.now }
    requires limits { plain.limits ≡ limits.now }
    requires inputs { plain.inputs ≡ inputs.now }
    requires listed { length inputs.now ≡ length program.now.threads }
    requires whole { IsHistory program.now limits.now inputs.now plain.taken }
    ensures { IfOk result (λ recorded. recorded ≡ recorded_of program.now limits.now inputs.now plain.entry.taken) }
{
    // So no thread has more entries or input numbers than a log can hold.
    prove!(limits.entries() <= 16_384);
    prove!(inputs.threads_count() <= 15);
    let all = all_entries(alloc, &plain, program.threads_count() as u8)?;
    let tags = last_tags(alloc, plain.cells())?;
    let last_values = plain.values()?;
    let reports = plain.into_reports()?;
    let threads = thread_logs(alloc, inputs, all, &reports)?;
    let log = RunLog::new([0; 32], *limits, threads, tags);
    Ok(Recorded::new(log, reports, last_values))
}

// Who wrote each word last.
pub(crate) fn last_tags(alloc: Global, cells: &[Cell]) -> Result<Vec<Tag>, Memory>
    ensures { IfOk result (λ tags. tags.items ≡ last_tags cells.now) }
{
    let tags = cells.iter().map(|cell| cell.tag).collect(alloc)?;
    Ok(tags)
}
