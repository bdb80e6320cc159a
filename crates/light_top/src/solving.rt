// Orders of a log's events: found, checked, written down, and played by.
ghost use Rattle.std.specs.Prelude.{◌≡◌, length, IfOk, IfErr};
ghost use Rattle.order_solver.specs.Solving.{IsFound};
ghost use Rattle.batch.specs.Replays.{IsTranscript};
ghost use Rattle.light_top.specs.Solving.{Unsolved, Unreplayed, events_line, order_file};
ghost use Rattle.light_top.specs.Statuses.{FailsBy};

use crate::Status;
use crate::bytes::Bytes;
use crate::order::Order;
use crate::output::{Output, Saved};
use crate::words::Name;
use batch::{Outcome, replay};
use dep_log::RunLog;
use light_base::{Memory, put_decimal};
use log_file::write_schedule;
use machine::Program;
use order_solver::Answer;
use std::alloc::Global;

/// An order that respects the log, found with at most so many dead ends.
pub fn find_order(alloc: Global, log: &RunLog, budget: u32) -> Result<Order, Status>
    ensures ok { IfOk result (λ order. IsFound log.now order) }
    ensures err { IfErr result (FailsBy (Unsolved log.now budget)) }
{
    match batch::find_order(alloc, log, budget)? {
        Answer::Found(events) => Ok(Order::of(events)),
        Answer::NoSchedule => Err(Status::NoSchedule),
        Answer::Spent => Err(Status::Spent),
    }
}

/// How many events an order has, as a line.
pub fn count_text(alloc: Global, order: &Order) -> Result<Bytes, Memory>
    ensures { IfOk result (λ text. text ≡ events_line (length order.now)) }
{
    let mut text = Vec::new(alloc);
    text.extend_from_slice(b"events ")?;
    put_decimal(&mut text, order.as_slice().len() as u64)?;
    text.push(b'\n')?;
    Ok(Bytes::of(text))
}

/// A text, and the file of an order.
pub fn with_order<'a>(
    alloc: Global,
    log: &RunLog,
    order: &Order,
    name: Name<'a>,
    text: Bytes,
) -> Result<Output<'a>, Memory>
    requires { IsFound log.now order.now }
    ensures text { IfOk result (λ output. output.text ≡ text) }
    ensures file { IfOk result (λ output. output.saved ≡ Some (order_file name.entry order.now)) }
{
    let bytes = Bytes::of(write_schedule(alloc, order.as_slice())?);
    Ok(Output {
        text,
        saved: Some(Saved { name, bytes }),
    })
}

/// Such an order, and the transcript of the program's runs that have the log.
pub fn find_runs(
    alloc: Global,
    program: &Program,
    log: &RunLog,
    budget: u32,
) -> Result<(Order, Bytes), Status>
    requires threads { length program.now.threads ≡ length log.now.threads }
    requires words { length program.now.words ≡ length log.now.last_tags }
    ensures order { IfOk result (λ found. IsFound log.now found.0) }
    ensures text { IfOk result (λ found. IsTranscript program.now log.now found.1) }
    ensures err { IfErr result (FailsBy (Unreplayed program.now log.now budget)) }
{
    match replay(alloc, program, log, budget)? {
        Outcome::Same { order, text } => Ok((Order::of(order), Bytes::of(text))),
        Outcome::Differs(difference) => Err(Status::Differs(difference)),
        Outcome::NoSchedule => Err(Status::NoSchedule),
        Outcome::Spent => Err(Status::Spent),
    }
}
