// What becomes of a job.
ghost use Rattle.std.specs.Prelude.{◌≡◌, IfOk, length};
ghost use Rattle.batch.specs.Jobs.{IsShort};
ghost use Rattle.batch.specs.Verdicts.{IsVerdict, IsReplayed};

use crate::job::Job;
use crate::print::Print;
use crate::reading::{program_in, todays_log_in};
use crate::replays::{Outcome, replay};
use dep_log::RunLog;
use light_base::Memory;
use machine::Program;
use sha2::{Digest, Sha256};
use std::alloc::Global;

/// What becomes of a job: the first of these that is so.
#[derive(Clone, Copy, Debug, PartialEq, Eq)]
pub enum Verdict {
    /// The bytes of the image are no image.
    ImageRefused,
    /// The bytes of the log are no log.
    LogRefused,
    /// The log is that of another program.
    WrongProgram,
    /// The search for an order has met more dead ends than the budget.
    Spent,
    /// No order respects the log.
    NoSchedule,
    /// No runs of the program have the log.
    Differs,
    /// Runs of the program have the log, and this is the SHA-256 of their transcript.
    Same([u8; 32]),
}

// What a replay of the program by the log comes to.
fn replayed(alloc: Global, program: &Program, log: &RunLog, budget: u32) -> Result<Verdict, Memory>
    requires threads { length program.now.threads ≡ length log.now.threads }
    requires words { length program.now.words ≡ length log.now.last_tags }
    ensures { IfOk result (IsReplayed program.now log.now budget) }
{
    match replay(alloc, program, log, budget)? {
        Outcome::Spent => Ok(Verdict::Spent),
        Outcome::NoSchedule => Ok(Verdict::NoSchedule),
        Outcome::Differs(_) => Ok(Verdict::Differs),
        Outcome::Same { text, .. } => Ok(Verdict::Same(Sha256::digest(text.as_slice()))),
    }
}

/// What becomes of a job, with at most so many dead ends in the search for an order. The one error is want of memory.
#[tactic(auto, using(crate::proofs::Judging::judging))]
pub fn judge(alloc: Global, job: &Job, budget: u32) -> Result<Verdict, Memory>
    requires { IsShort job.now }
    ensures { IfOk result (IsVerdict budget job.now) }
{
    let program = match program_in(alloc, job.image())? {
        Ok(program) => program,
        Err(_) => return Ok(Verdict::ImageRefused),
    };
    let log = match todays_log_in(alloc, job.log())? {
        Ok(log) => log,
        Err(_) => return Ok(Verdict::LogRefused),
    };
    if !Print::of_log(&log).is(&Print::of_image(job.image(), &program)) {
        return Ok(Verdict::WrongProgram);
    }
    replayed(alloc, &program, &log, budget)
}

// Verdicts move to the thread that waits for them.
fn crosses(verdict: Verdict) -> Verdict {
    is_moved(verdict)
}

fn is_moved<T: Send>(value: T) -> T {
    value
}
