// The pairs that a log leaves open.
ghost use Rattle.std.specs.Prelude.{◌≡◌, ◌+◌, ◌<◌, ◌++◌, ◌^◌, IfOk, length};
ghost use Rattle.constraints.specs.Constraints.{pairs_of};
ghost use Rattle.races.specs.Shut.{IsBase};
ghost use Rattle.races.specs.Openings.{IsOpen};

use crate::base::base_graph;
use crate::count::tally_of;
use crate::list::list_word;
use crate::pair::Pair;
use crate::table::table_of;
use crate::tally::{Tally, added, pair_count};
use constraints::Problem;
use light_base::Memory;
use order_graph::Graph;
use std::alloc::Global;

/// What a log's base edges alone say of its rival pairs.
#[derive(Drop)]
pub struct Open {
    /// How many there are.
    pub pairs: u64,
    /// How many of them are left in either order.
    pub left_open: u64,
    /// Of how many one order alone is left.
    pub forced: u64,
    /// Of how many neither order is left. Then no order respects the log.
    pub stuck: u64,
    /// The first of those that are left in either order, by word, lesser and greater tag.
    pub first: Vec<Pair>,
}

// Where the base edges have no cycle.
fn open_by(alloc: Global, problem: &Problem, graph: &Graph, most: usize) -> Result<Open, Memory>
    requires { IsBase problem.now graph.now }
    ensures { IfOk result (IsOpen problem.now most) }
{
    let _events = problem.events();
    let mut all = Tally {
        pairs: 0,
        left_open: 0,
        forced: 0,
        stuck: 0,
    };
    let mut first = Vec::new(alloc);
    for word in 0..problem.words() {
        let table = table_of(alloc, problem, graph, word)?;
        all = added(all, tally_of(problem, &table, word));
        list_word(problem, &table, word, most, &mut first)?;
    }
    Ok(Open {
        pairs: all.pairs,
        left_open: all.left_open,
        forced: all.forced,
        stuck: all.stuck,
        first,
    })
}

// How many rival pairs there are.
fn pair_total(problem: &Problem) -> u64
    ensures { result ≡ length (pairs_of problem.now) }
{
    let _events = problem.events();
    let mut total: u64 = 0;
    for word in 0..problem.words() {
        total += pair_count(problem.sources(word).len() as u64);
    }
    total
}

/// What the base edges alone say of a log's rival pairs: how many there are, how many of them are open, forced and stuck, and the
/// first `most` of those that are open, or all. The one error is want of memory; the problem stays as it was.
///
/// No pair is listed but those that are answered. Of the sources of one thread against one source, none is looked at by itself but
/// where one of them makes an open pair that is to be listed, or a stuck one.
pub fn open_pairs(alloc: Global, problem: &Problem, most: u32) -> Result<Open, Memory>
    ensures { IfOk result (IsOpen problem.now most) }
{
    match base_graph(alloc, problem)? {
        Some(graph) => open_by(alloc, problem, &graph, most as usize),
        None => {
            let pairs = pair_total(problem);
            Ok(Open {
                pairs,
                left_open: 0,
                forced: 0,
                stuck: pairs,
                first: Vec::new(alloc),
            })
        }
    }
}
