// The guess.
use crate::chains::Chains;
use crate::opening::Opening;
use crate::plan::Plan;
use crate::reach::Reach;
use crate::shape::Shape;
use crate::stop::Stop;
use crate::writers::Writers;
use light_base::Memory;
use order_judge::Read;
use plain_search::Edge;
use std::alloc::Global;

// The order, or why there is none.
fn order_of(
    alloc: Global,
    chains: Chains,
    edges: &[Edge],
    reads: &[Read],
) -> Result<Vec<u32>, Stop> {
    let Opening { clocks, before } = Opening::of(alloc, &chains, edges)?;
    let writers = Writers::of(alloc, &chains, reads)?;
    let shape = Shape {
        chains,
        before,
        writers,
    };
    let reach = Reach::of(alloc, &shape, clocks)?;
    Plan::of(alloc, &shape, reach)?.order(&shape)
}

/// Guesses an order of the nodes in which edges rise, and of two writers of a word one is read for the last time no later than
/// the other writes. Nodes are numbered from 0, chain after chain; `counts` are the lengths of the chains.
///
/// An order that comes may be none, and where None comes there may be one. None comes for more than 16 chains, 2^24 nodes or
/// 2^16 words.
pub fn guess(
    alloc: Global,
    counts: &[u32],
    edges: &[Edge],
    reads: &[Read],
) -> Result<Option<Vec<u32>>, Memory> {
    let Some(chains) = Chains::of(alloc, counts)? else {
        return Ok(None);
    };
    match order_of(alloc, chains, edges, reads) {
        Ok(order) => Ok(Some(order)),
        Err(Stop::Stuck) => Ok(None),
        Err(Stop::Memory) => Err(Memory),
    }
}
