// Events of an order by their positions in the list of all events.
ghost use Rattle.std.specs.Prelude.{◌≡◌, ◌^◌, ◌<◌, IfOk, map, length};
ghost use Rattle.replay_model.specs.Orders.{place};
ghost use Rattle.constraints.specs.Positions.{is_before, IsListed};

use light_base::{Event, Memory};
use std::alloc::Global;

// Whether the one event comes before the other: by thread, and then by number.
fn precedes(one: &Event, other: &Event) -> bool
    ensures { result ≡ is_before one.now other.now }
{
    one.thread < other.thread || (one.thread == other.thread && one.step < other.step)
}

// The position of the event in a list of events that goes by thread and number; the list's length where it has none.
fn position_of(events: &[Event], event: &Event) -> u32
    requires order { IsListed events.now }
    requires small { length events.now < 2 ^ 32 }
    ensures { result ≡ place events.now event.now }
{
    let position = events.partition_point(|other| precedes(other, event));
    if position < events.len() && events[position] == *event {
        position as u32
    } else {
        events.len() as u32
    }
}

// The positions of the events of an order; the number of all events for one that is not among them.
pub(crate) fn positions_of(
    alloc: Global,
    events: &[Event],
    order: &[Event],
) -> Result<Vec<u32>, Memory>
    requires order { IsListed events.now }
    requires small { length events.now < 2 ^ 32 }
    ensures { IfOk result (λ positions. positions.items ≡ map (place events.now) order.now) }
{
    let positions = order
        .iter()
        .map(|event| position_of(events, event))
        .collect(alloc)?;
    Ok(positions)
}
