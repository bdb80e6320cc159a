// Recording on threads.
ghost use Rattle.std.specs.Prelude.{◌≡◌, ◌≤◌, All, IfOk, length, map};
ghost use Rattle.std.specs.List.{range_with_len};
ghost use Rattle.replay_model.specs.WellFormed.{IsWellFormed};
ghost use Rattle.recorder.specs.Records.{IsRecordOf, log_without_digest, recorded_from, values_in};
ghost use Rattle.recorder.specs.Gathered.{IsDone, hand_in, log_in, report_in, thread_in};

use crate::Gate;
use crate::recorded::Recorded;
use crate::thread_runs::Finished;
use crate::turns::last_tags;
use crate::workers::{collected, dealt, run_groups};
use dep_log::{RunLog, ThreadLog};
use light_base::{Cell, Memory};
use machine::{Inputs, Limits, Program, RunReport};
use std::alloc::Global;
use std::thread::Threads;
use tagged_words::{Hand, Words};

// The parts of threads that have ended, in their order.
fn parted(
    alloc: Global,
    all: Vec<Finished>,
) -> Result<(Vec<Hand>, Vec<ThreadLog>, Vec<RunReport>), Memory>
    ensures hands { IfOk result (λ r. r.0.items ≡ map hand_in all.items) }
    ensures logs { IfOk result (λ r. r.1.items ≡ map log_in all.items) }
    ensures reports { IfOk result (λ r. r.2.items ≡ map report_in all.items) }
{
    let mut hands = Vec::with_capacity(alloc, all.len())?;
    let mut logs = Vec::with_capacity(alloc, all.len())?;
    let mut reports = Vec::with_capacity(alloc, all.len())?;
    for one in all {
        let Finished { hand, log, report } = one;
        hands.push(hand)?;
        logs.push(log)?;
        reports.push(report)?;
    }
    Ok((hands, logs, reports))
}

// The value of each word.
fn values(alloc: Global, cells: &[Cell]) -> Result<Vec<u32>, Memory>
    ensures { IfOk result (λ values. values.items ≡ values_in cells.now) }
{
    let values = cells.iter().map(|cell| cell.value).collect(alloc)?;
    Ok(values)
}

// What is recorded of threads that have ended, and left these cells.
fn recorded(
    alloc: Global,
    limits: &Limits,
    cells: &[Cell],
    logs: Vec<ThreadLog>,
    reports: Vec<RunReport>,
) -> Result<Recorded, Memory>
    requires { IsWellFormed (log_without_digest limits.now cells.now logs.items) }
    ensures { IfOk result (λ recorded. recorded ≡ recorded_from limits.now cells.now logs.items reports.items) }
{
    let tags = last_tags(alloc, cells)?;
    let last_values = values(alloc, cells)?;
    let log = RunLog::new([0; 32], *limits, logs, tags);
    Ok(Recorded::new(log, reports, last_values))
}

// What is recorded of all threads, which have ended, and of the words that they shared.
fn gather(
    alloc: Global,
    words: Words,
    program: &Program,
    limits: &Limits,
    inputs: &Inputs,
    all: Vec<Finished>,
) -> Result<Recorded, Memory>
    requires start { words.start ≡ record { initial = program.now.words; threads = length program.now.threads } }
    requires each { All (IsDone words program.now limits.now inputs.now) all.items }
    requires threads { map thread_in all.items ≡ range_with_len 0 (length program.now.threads) }
    ensures { IfOk result (IsRecordOf program.now limits.now inputs.now) }
{
    // So the log of a history of the program is well formed.
    prove!(program.words().len() <= 4096);
    prove!(limits.entries() <= 16_384);
    prove!(inputs.threads_count() <= 15);
    let (hands, logs, reports) = parted(alloc, all)?;
    let cells = words.close(alloc, hands)?;
    recorded(alloc, limits, &cells, logs, reports)
}

/// Runs a program with its inputs on so many workers and records it: thread t belongs to worker t modulo their number, and a
/// worker goes round its threads by rising number, `slice` memory steps or a thread's end at a time. All of them share the
/// program's words. What is recorded is that of one whole history of the program, in which the threads' memory steps
/// follow one another.
///
/// The gate is passed before each memory step. The digest of the log is 32 zero bytes.
pub fn record_workers<R: Threads + Sync, G: Gate>(
    rt: &R,
    alloc: Global,
    program: &Program,
    limits: &Limits,
    inputs: &Inputs,
    workers: u8,
    slice: u32,
    gate: &G,
) -> Result<Recorded, Memory>
    requires listed { length inputs.now ≡ length program.now.threads }
    requires workers { (1 ≤ workers) × (workers ≤ 15) }
    requires slice { 1 ≤ slice }
    ensures { IfOk result (IsRecordOf program.now limits.now inputs.now) }
{
    let threads = program.threads_count() as u8;
    let (words, hands) = Words::open(alloc, program.words(), threads)?;
    let groups = dealt(alloc, hands, workers)?;
    let groups = run_groups(
        rt, alloc, &words, groups, program, limits, inputs, slice, gate,
    )?;
    let all = collected(alloc, groups, workers, threads)?;
    gather(alloc, words, program, limits, inputs, all)
}

/// Runs a program with its inputs on threads and records it, as `record_workers` does where each thread of the program has
/// a worker of its own.
pub fn record<R: Threads + Sync, G: Gate>(
    rt: &R,
    alloc: Global,
    program: &Program,
    limits: &Limits,
    inputs: &Inputs,
    gate: &G,
) -> Result<Recorded, Memory>
    requires { length inputs.now ≡ length program.now.threads }
    ensures { IfOk result (IsRecordOf program.now limits.now inputs.now) }
{
    let workers = program.threads_count() as u8;
    record_workers(rt, alloc, program, limits, inputs, workers, u32::MAX, gate)
}
