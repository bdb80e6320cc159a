// The place of each node in an order.
ghost use Rattle.std.specs.Prelude.{◌≡◌, ◌≢◌, ℕ, ◌^◌, ◌<◌, IfOk, MatchOption, length, slice_index};
ghost use Rattle.order_judge.specs.Places.{IsPlacing};

use light_base::Memory;
use std::alloc::Global;

/// Where the nodes stand in a list of nodes, or why the list is no order of them.
#[derive(Debug, Drop)]
pub enum Placing {
    /// Each node stands there once. This is the place of each.
    Placed(Vec<u32>),
    /// At this place stands no node, and at no earlier one.
    Unknown(u32),
    /// At this place stands a node that stands at an earlier one too. It is the first such place.
    Twice(u32),
    /// This node stands at no place. It is the least such node.
    Missing(u32),
}

// Stands for the place of a node that has none.
const NONE: u32 = u32::MAX;

// The first node that has no place.
fn first_unplaced(places: &[u32]) -> Option<u32>
    requires { length places.now < 2 ^ 32 }
    ensures { MatchOption result ((x : ℕ) → x < length places.now → slice_index places.now x ≢ NONE)
        (λ x. (x < length places.now) × (slice_index places.now x ≡ NONE) × ((y : ℕ) → y < x → slice_index places.now y ≢ NONE)) }
{
    places
        .iter()
        .position(|place| *place == NONE)
        .map(|node| node as u32)
}

/// The places of the nodes, which are the numbers below `nodes`, in the order; or the first fault that makes it no order of
/// them: a place of no node, then a place of a node that has an earlier one, then a node with no place.
pub fn places_of(alloc: Global, nodes: u32, order: &[u32]) -> Result<Placing, Memory>
    requires { length order.now < 2 ^ 32 }
    ensures { IfOk result (λ placing. IsPlacing nodes order.now placing) }
{
    if let Some(k) = order.iter().position(|node| *node >= nodes) {
        return Ok(Placing::Unknown(k as u32));
    }
    let mut places = vec![in alloc; NONE; nodes as usize]?;
    for (k, node) in order.iter().enumerate() {
        let place = &mut places[*node as usize];
        if *place != NONE {
            return Ok(Placing::Twice(k as u32));
        }
        *place = k as u32;
    }
    match first_unplaced(&places) {
        Some(node) => Ok(Placing::Missing(node)),
        None => Ok(Placing::Placed(places)),
    }
}
