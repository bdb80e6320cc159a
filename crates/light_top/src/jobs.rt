// The jobs of a batch, and the text of their verdicts.
ghost use Rattle.std.specs.Prelude.{◌≡◌, ◌≤◌, All, IfOk, length};
ghost use Rattle.batch.specs.Jobs.{IsShort};
ghost use Rattle.light_top.specs.Batches.{AreJobs, AreTold};

use crate::bytes::Bytes;
use crate::crew::Workers;
use batch::{Gate, Job, batch, verdicts_text};
use light_base::Memory;
use std::alloc::Global;
use std::marker::Model;
use std::thread::Threads;

/// Jobs, 1 to 64 of them, whose files are of a size that is loaded.
#[derive(Drop)]
pub struct Jobs {
    items: Vec<Job>,
}

impl Model for Jobs {
    ghost use Rattle.std.specs.Prelude.{List};
    ghost use Rattle.batch.specs.Jobs.{JobValue};
    ghost use Rattle.light_top.specs.Batches.{AreJobs};

    ghost Value = { List JobValue };

    ghost view = { λ j. j.items.items };

    ghost invariant = { λ j. AreJobs j.items.items };
}

impl Jobs {
    pub fn of(items: Vec<Job>) -> Jobs
        requires { AreJobs items.items }
        ensures { result ≡ items.items }
    {
        Jobs { items }
    }

    pub fn as_slice(&self) -> &[Job]
        ensures value { result.now ≡ self.now }
        ensures rules { AreJobs self.now }
    {
        &self.items
    }
}

/// What becomes of each job, as text; so many workers do them.
pub fn judge_jobs<R: Threads + Sync, G: Gate>(
    rt: &R,
    alloc: Global,
    gate: &G,
    jobs: &Jobs,
    budget: u32,
    workers: &Workers,
) -> Result<Bytes, Memory>
    ensures { IfOk result (AreTold budget jobs.now) }
{
    let verdicts = batch(rt, alloc, jobs.as_slice(), budget, workers.count(), gate)?;
    Ok(Bytes::of(verdicts_text(alloc, &verdicts)?))
}
