// Many jobs over workers.
ghost use Rattle.std.specs.Prelude.{◌≤◌, ◌<◌, All, IfOk, length};
ghost use Rattle.std.specs.Thread.{IsSync};
ghost use Rattle.batch.specs.Jobs.{IsShort, most_jobs};
ghost use Rattle.batch.specs.Parts.{AreVerdicts, IsPartJudged, MayWork};

use crate::job::Job;
use crate::parts::{joined, judge_part};
use crate::verdict::Verdict;
use light_base::Memory;
use running_thread::Gate;
use std::alloc::Global;
use std::thread::{Threads, map_indices};

/// What becomes of each job, in the order of the jobs. So many workers do them: of n jobs the worker w, from 0, has those
/// from number w · n / workers up to, and without, number (w + 1) · n / workers, counted from 0 and rounded down. Before the
/// job with number j, from 1, its worker w calls `pass(w, j)` at the gate.
///
/// The one error is want of memory, in any of the jobs.
pub fn batch<R: Threads + Sync, G: Gate>(
    rt: &R,
    alloc: Global,
    jobs: &[Job],
    budget: u32,
    workers: u8,
    gate: &G,
) -> Result<Vec<Verdict>, Memory>
    requires jobs { (1 ≤ length jobs.now) × (length jobs.now ≤ most_jobs) }
    requires files { All IsShort jobs.now }
    requires workers { (1 ≤ workers) × (workers ≤ 15) }
    ensures { IfOk result (λ verdicts. AreVerdicts budget jobs.now verdicts.items) }
{
    let parts = map_indices(
        rt,
        alloc,
        usize::from(workers),
        &|worker: usize| -> Result<Vec<Verdict>, Memory>
            requires { IsSync G.row × MayWork jobs.now × (worker < workers) }
            ensures { IfOk result (IsPartJudged budget jobs.entry.now workers worker) }
        { judge_part(alloc, jobs, budget, workers, worker, gate) },
    )?;
    joined(alloc, &parts)
}
