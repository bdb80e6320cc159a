// A log is solved and replayed.
ghost use Rattle.std.specs.Prelude.{◌≡◌, IfOk, Ok, length};
ghost use Rattle.replay_model.specs.Orders.{Respects};
ghost use Rattle.order_solver.specs.Solving.{Solved};
ghost use Rattle.batch.specs.Replays.{IsOutcome, IsTold};

use constraints::Problem;
use dep_log::RunLog;
use light_base::{Event, Memory};
use machine::Program;
use order_solver::{Answer, solve};
use replayer::{Difference, Replayed, replay_order};
use std::alloc::Global;
use transcript::text_of;

/// What becomes of a replay.
#[derive(Drop)]
pub enum Outcome {
    /// The search for an order has met more dead ends than the budget.
    Spent,
    /// No order respects the log.
    NoSchedule,
    /// No runs of the program have the log, and this is the first difference that the replay found.
    Differs(Difference),
    /// An order that respects the log, and the transcript of the runs that have the log.
    Same { order: Vec<Event>, text: Vec<u8> },
}

/// An order that respects the log, found with at most so many dead ends.
pub fn find_order(alloc: Global, log: &RunLog, budget: u32) -> Result<Answer, Memory>
    ensures { Solved log.now budget result }
{
    let problem = Problem::of(alloc, log)?;
    solve(alloc, &problem, budget)
}

// The transcript of the program's runs that have the log, as a replay by the order finds them.
fn told_by(
    alloc: Global,
    program: &Program,
    log: &RunLog,
    order: &[Event],
) -> Result<Result<Vec<u8>, Difference>, Memory>
    requires threads { length program.now.threads ≡ length log.now.threads }
    requires words { length program.now.words ≡ length log.now.last_tags }
    requires order { Respects log.now order.now }
    ensures { IfOk result (IsTold program.now log.now) }
{
    match replay_order(alloc, program, log, order)? {
        Replayed::Same(reports, values) => Ok(Ok(text_of(alloc, &reports, &values)?)),
        Replayed::Differs(difference) => Ok(Err(difference)),
    }
}

/// Finds an order that respects the log, with at most so many dead ends, and replays the program by it.
pub fn replay(
    alloc: Global,
    program: &Program,
    log: &RunLog,
    budget: u32,
) -> Result<Outcome, Memory>
    requires threads { length program.now.threads ≡ length log.now.threads }
    requires words { length program.now.words ≡ length log.now.last_tags }
    ensures { IfOk result (IsOutcome program.now log.now budget) }
{
    match find_order(alloc, log, budget)? {
        Answer::Spent => Ok(Outcome::Spent),
        Answer::NoSchedule => Ok(Outcome::NoSchedule),
        Answer::Found(order) => match told_by(alloc, program, log, &order)? {
            Ok(text) => Ok(Outcome::Same { order, text }),
            Err(difference) => Ok(Outcome::Differs(difference)),
        },
    }
}
