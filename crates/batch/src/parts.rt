// Each worker's part of the jobs, and what becomes of it.
ghost use Rattle.std.specs.Prelude.{◌≡◌, ◌<◌, ◌≤◌, ◌+◌, All, IfOk, IsOk, length};
ghost use Rattle.std.specs.List.{flat_map};
ghost use Rattle.batch.specs.Jobs.{IsShort, most_jobs};
ghost use Rattle.batch.specs.Parts.{IsPartJudged, part_start, verdicts_in};

use crate::job::Job;
use crate::verdict::{Verdict, judge};
use light_base::Memory;
use running_thread::Gate;
use std::alloc::Global;

// Where the part of a worker begins, and where it ends.
fn part_ends(jobs: usize, workers: u8, worker: usize) -> (usize, usize)
    requires worker { worker < workers }
    requires jobs { jobs ≤ most_jobs }
    ensures begin { result.0 ≡ part_start jobs workers worker }
    ensures end { result.1 ≡ part_start jobs workers (worker + 1) }
    ensures rising { result.0 ≤ result.1 }
    ensures within { result.1 ≤ jobs }
{
    let workers = usize::from(workers);
    (worker * jobs / workers, (worker + 1) * jobs / workers)
}

/// The verdicts of a worker's jobs, in their order. Before each job the gate is passed.
pub(crate) fn judge_part<G: Gate>(
    alloc: Global,
    jobs: &[Job],
    budget: u32,
    workers: u8,
    worker: usize,
    gate: &G,
) -> Result<Vec<Verdict>, Memory>
    requires jobs { length jobs.now ≤ most_jobs }
    requires files { All IsShort jobs.now }
    requires worker { worker < workers }
    ensures { IfOk result (IsPartJudged budget jobs.now workers worker) }
{
    let (from, to) = part_ends(jobs.len(), workers, worker);
    let mut verdicts = Vec::with_capacity(alloc, to - from)?;
    for number in from..to {
        gate.pass(worker as u8, number as u32 + 1);
        verdicts.push(judge(alloc, &jobs[number], budget)?)?;
    }
    Ok(verdicts)
}

/// The verdicts of all parts, in their order.
pub(crate) fn joined(
    alloc: Global,
    parts: &[Result<Vec<Verdict>, Memory>],
) -> Result<Vec<Verdict>, Memory>
    ensures done { IfOk result (λ all. All IsOk parts.now) }
    ensures order { IfOk result (λ all. all.items ≡ flat_map verdicts_in parts.now) }
{
    let mut all = Vec::new(alloc);
    for part in parts {
        match part {
            Ok(verdicts) => all.extend_from_slice(verdicts)?,
            Err(_) => return Err(Memory),
        }
    }
    Ok(all)
}
