// The solver of a log.
ghost use Rattle.std.specs.Prelude.{◌≡◌, ◌<◌, ◌≤◌, ◌^◌, All, IfOk, OnErr, [], length, map, slice_index_or, vec_capacity};
ghost use Rattle.constraints.specs.Positions.{no_event};
ghost use Rattle.constraints.specs.Constraints.{side_edges_of};
ghost use Rattle.order_solver.specs.Prepared.{most_side_edges};
ghost use Rattle.order_solver.specs.Solving.{Solved};

use crate::finding::{Finding, Prepared, prepare, search_line};
use crate::guessing::guess_line;
use constraints::Problem;
use light_base::{Event, Memory};
use std::alloc::Global;
use std::marker::Model;

/// What became of the search for an order that respects a log.
#[derive(Drop)]
pub enum Answer {
    /// All events of the log in an order that respects it.
    Found(Vec<Event>),
    /// No order respects the log.
    NoSchedule,
    /// The search met more dead ends than it may.
    Spent,
}

// Appends the events at these positions.
fn put_events(order: &mut Vec<Event>, events: &[Event], positions: &[u32])
    requires within { All (λ p. p < length events.now) positions.now }
    requires empty { order.old.items ≡ [] }
    requires room { length positions.now ≤ vec_capacity order.old }
    ensures { order.new.items ≡ map (λ p. slice_index_or events.now p no_event) positions.now }
{
    for position in positions {
        order.push_reserved(events[*position as usize]);
    }
}

// The events at these positions.
fn events_at(alloc: Global, events: &[Event], positions: &[u32]) -> Result<Vec<Event>, Memory>
    requires { All (λ p. p < length events.now) positions.now }
    ensures { IfOk result (λ order. order.items ≡ map (λ p. slice_index_or events.now p no_event) positions.now) }
{
    let mut order = Vec::with_capacity(alloc, positions.len())?;
    put_events(&mut order, events, positions);
    Ok(order)
}

// The most edges of pairs' longer sides for which a search takes its memory before it begins.
const MOST_SIDE_EDGES: u64 = 4_194_304;

// For how many of them the memory is taken before the search begins: for all, or else for none.
fn side_edges_first(problem: &Problem) -> u32
    ensures { side_edges_of problem.now ≤ most_side_edges → result ≡ side_edges_of problem.now }
{
    let side_edges = problem.side_edges();
    if side_edges <= MOST_SIDE_EDGES {
        side_edges as u32
    } else {
        0
    }
}

/// A search for an order of a log's events, with its memory.
///
/// It is seen as the log.
#[derive(Drop)]
pub struct Search<'p> {
    problem: &'p Problem,
    prepared: Prepared,
    order: Vec<Event>,
}

impl<'p> Model for Search<'p> {
    ghost use Rattle.std.specs.Prelude.{◌≡◌, ◌≤◌, [], length, vec_capacity};
    ghost use Rattle.replay_model.specs.Logs.{Log};
    ghost use Rattle.constraints.specs.Positions.{event_list};
    ghost use Rattle.order_solver.specs.Logs.{rivalry_of};
    ghost use Rattle.constraints.specs.Constraints.{side_edges_of};
    ghost use Rattle.order_solver.specs.Prepared.{IsPrepared, HasMemoryFor, most_side_edges};

    ghost Value = { Log };

    ghost view = { λ s. s.problem.now };

    ghost invariant = { λ s. IsPrepared (rivalry_of s.problem.now) s.prepared ×
        (side_edges_of s.problem.now ≤ most_side_edges → HasMemoryFor (side_edges_of s.problem.now) s.prepared) × (s.order.items ≡ []) ×
        (length (event_list s.problem.now) ≤ vec_capacity s.order) };
}

impl<'p> Search<'p> {
    /// Takes the memory of the whole search, where the longer sides of the log's rival pairs have no more than 4,194,304 edges
    /// in all. The one error is want of memory.
    pub fn new(alloc: Global, problem: &'p Problem) -> Result<Search<'p>, Memory>
        ensures { IfOk result (λ search. search ≡ problem.now) }
    {
        let events = problem.events();
        Ok(Search {
            problem,
            prepared: prepare(alloc, problem, side_edges_first(problem))?,
            order: Vec::with_capacity(alloc, events.len())?,
        })
    }

    /// Searches, with at most so many dead ends. The answers are those of `solve`. It answers `Memory` only where the longer
    /// sides of the log's rival pairs have more than 4,194,304 edges in all.
    pub fn run(self, budget: u32) -> Result<Answer, Memory>
        ensures solved { Solved self.entry budget result }
        ensures memory { OnErr result (most_side_edges < side_edges_of self.entry) }
    {
        let Search {
            problem,
            prepared,
            mut order,
        } = self;
        let events = problem.events();
        if problem.impossible() {
            return Ok(Answer::NoSchedule);
        }
        match search_line(problem, prepared, budget)? {
            Finding::Line(line) => {
                put_events(&mut order, events, &line);
                Ok(Answer::Found(order))
            }
            Finding::None => Ok(Answer::NoSchedule),
            Finding::Spent => Ok(Answer::Spent),
        }
    }
}

/// Looks for an order of a log's events that respects the log, with at most so many dead ends.
///
/// `Found` is such an order: fewer than 2^28 events, each of which has a tag, so that it can be written as a schedule.
/// `NoSchedule` comes only where there is none. `Spent` comes only where the plain search meets more dead ends than the
/// budget; any budget may be asked, also 0. The one error is want of memory. The problem stays as it was, so that it may be
/// asked again, with another budget.
///
/// An order that is guessed is looked at first. Where there is none that the judge lets stand, or no memory for it, an exact
/// search decides.
pub fn solve(alloc: Global, problem: &Problem, budget: u32) -> Result<Answer, Memory>
    ensures { Solved problem.now budget result }
{
    let events = problem.events();
    if problem.impossible() {
        return Ok(Answer::NoSchedule);
    }
    if let Ok(Some(line)) = guess_line(alloc, problem) {
        return Ok(Answer::Found(events_at(alloc, events, &line)?));
    }
    Search::new(alloc, problem)?.run(budget)
}
