// Whether a log is legal for a program.
ghost use Rattle.std.specs.Prelude.{◌≡◌, length};
ghost use Rattle.replay_model.specs.Orders.{Respects};
ghost use Rattle.order_solver.specs.Rivals.{AreRivals};
ghost use Rattle.order_solver.specs.Findings.{Finds};
ghost use Rattle.audit.specs.Judging.{Judged};
ghost use Rattle.audit.specs.Cases.{IsCase};

use crate::laws::{constraint_law, legal_law, rivalry_law};
use crate::placed::is_impossible;
use crate::placing::{Case, Placing};
use constraints::Problem;
use dep_log::RunLog;
use light_base::{Event, Memory};
use machine::Program;
use order_solver::{Answer, Finding, Rivals, guess_line, prepare, search_line, solve};
use replayer::{Replayed, replay_noting};
use std::alloc::Global;

/// What an audit says of a log.
#[derive(Drop)]
pub enum Audit {
    /// A whole history of the program that has the log: whose steps are taken, one after the other.
    Legal(Vec<u8>),
    /// No whole history of the program has the log.
    NotLegal,
    /// The search met more dead ends than it may.
    Spent,
}

// Looks for a row of all nodes: a guess that the judge lets stand, or else the exact search.
fn find<R: Rivals>(alloc: Global, rivals: &R, budget: u32) -> Result<Finding, Memory>
    requires { AreRivals (R.rivalry rivals.now) }
    ensures { Finds (R.rivalry rivals.now) budget result }
{
    if let Ok(Some(line)) = guess_line(alloc, rivals) {
        return Ok(Finding::Line(line));
    }
    let prepared = prepare(alloc, rivals, 0)?;
    search_line(rivals, prepared, budget)
}

// Whether the runs of the case have a placing, and then its turns.
fn judge_case(alloc: Global, case: &Case, budget: u32) -> Result<Audit, Memory>
    requires case { IsCase case.now }
    requires threads { length case.now.program.now.threads ≡ length case.now.log.now.threads }
    requires order { Respects case.now.log.now case.now.order.now.items }
    ensures { Judged case.now.program.now case.now.log.now budget result }
{
    legal_law();
    constraint_law();
    rivalry_law();
    if is_impossible(case.log, case.writes) {
        return Ok(Audit::NotLegal);
    }
    let placing = Placing::of(alloc, case)?;
    match find(alloc, &placing, budget)? {
        Finding::Line(line) => Ok(Audit::Legal(placing.turns(alloc, &line)?)),
        Finding::None => Ok(Audit::NotLegal),
        Finding::Spent => Ok(Audit::Spent),
    }
}

// Whether the log is legal, by a replay in an order that respects it.
fn judge_by(
    alloc: Global,
    program: &Program,
    log: &RunLog,
    order: &Vec<Event>,
    budget: u32,
) -> Result<Audit, Memory>
    requires threads { length program.now.threads ≡ length log.now.threads }
    requires words { length program.now.words ≡ length log.now.last_tags }
    requires order { Respects log.now order.now.items }
    ensures { Judged program.now log.now budget result }
{
    legal_law();
    let (replayed, writes) = replay_noting(alloc, program, log, order)?;
    if let Replayed::Differs(_) = replayed {
        return Ok(Audit::NotLegal);
    }
    let problem = Problem::of(alloc, log)?;
    let case = Case {
        program,
        log,
        problem: &problem,
        order,
        writes: &writes,
    };
    judge_case(alloc, &case, budget)
}

/// Judges whether a log, of as many threads and words as the program has, is that of a whole history of the program.
///
/// `Legal` is such a history, with the numbers that the log holds as inputs. `NotLegal` comes only where there is none with
/// any inputs. `Spent` comes only where the plain search for an order of the events, and then for a placing of the writes too,
/// meets more dead ends than the budget. The one error is want of memory.
pub fn judge(alloc: Global, program: &Program, log: &RunLog, budget: u32) -> Result<Audit, Memory>
    requires threads { length program.now.threads ≡ length log.now.threads }
    requires words { length program.now.words ≡ length log.now.last_tags }
    ensures { Judged program.now log.now budget result }
{
    legal_law();
    let problem = Problem::of(alloc, log)?;
    match solve(alloc, &problem, budget)? {
        Answer::Found(order) => judge_by(alloc, program, log, &order, budget),
        Answer::NoSchedule => Ok(Audit::NotLegal),
        Answer::Spent => Ok(Audit::Spent),
    }
}
