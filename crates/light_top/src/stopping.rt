// How a thread stands right after a step of a logged run.
ghost use Rattle.std.specs.Prelude.{◌≡◌, ◌<◌, ◌≤◌, length, IfOk, IfErr};
ghost use Rattle.replay_model.specs.Logs.{thread_of};
ghost use Rattle.replay_model.specs.Orders.{Respects};
ghost use Rattle.light_top.specs.Stopping.{IsSnapText, IsSnapBy, Straying, Unstopped};
ghost use Rattle.light_top.specs.Statuses.{FailsBy};

use crate::Status;
use crate::bytes::Bytes;
use crate::solving::find_order;
use dep_log::RunLog;
use light_base::Event;
use machine::Program;
use std::alloc::Global;
use stopper::{Stopped, snap_text, stop_at};

// The same as a play by this order finds it.
fn stop_by(
    alloc: Global,
    program: &Program,
    log: &RunLog,
    order: &[Event],
    thread: u8,
    step: u32,
) -> Result<Bytes, Status>
    requires threads { length program.now.threads ≡ length log.now.threads }
    requires words { length program.now.words ≡ length log.now.last_tags }
    requires thread { thread < length log.now.threads }
    requires step { step ≤ (thread_of log.now thread).steps }
    requires order { Respects log.now order.now }
    ensures ok { IfOk result (IsSnapBy program.now log.now thread step order.now) }
    ensures err { IfErr result (FailsBy (Straying program.now log.now thread step)) }
{
    match stop_at(alloc, program, log, order, thread, step)? {
        Stopped::At(snap) => Ok(Bytes::of(snap_text(alloc, thread, step, &snap)?)),
        Stopped::Strays(stray) => Err(Status::Strays(stray)),
    }
}

/// How a thread stands right after a step, as text; only what this step needs is played.
pub fn stop_log(
    alloc: Global,
    program: &Program,
    log: &RunLog,
    thread: u8,
    step: u32,
    budget: u32,
) -> Result<Bytes, Status>
    requires threads { length program.now.threads ≡ length log.now.threads }
    requires words { length program.now.words ≡ length log.now.last_tags }
    requires thread { thread < length log.now.threads }
    requires step { step ≤ (thread_of log.now thread).steps }
    ensures ok { IfOk result (IsSnapText program.now log.now thread step) }
    ensures err { IfErr result (FailsBy (Unstopped program.now log.now thread step budget)) }
{
    let order = find_order(alloc, log, budget)?;
    stop_by(alloc, program, log, order.as_slice(), thread, step)
}
