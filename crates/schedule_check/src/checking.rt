// The check of an order.
ghost use Rattle.std.specs.Prelude.{◌≡◌, ◌^◌, ◌<◌, ◌↔◌, IfOk, length};
ghost use Rattle.replay_model.specs.Orders.{Respects};
ghost use Rattle.schedule_check.specs.declared.faults.Verdict.TheVariants as verdict;
ghost use Rattle.schedule_check.specs.Faults.{verdict_of, IsFault};
ghost use Rattle.schedule_check.specs.Placed.{IsPlaced};

use crate::events::positions_of;
use crate::faults::{OrderFault, OrderKind, Verdict};
use crate::last_tags::first_too_long;
use crate::ranks::{ends_of, first_untimely, ranges_of};
use crate::turns::first_overtaken;
use constraints::{list_events, place_entries, place_last_tags};
use dep_log::RunLog;
use light_base::{Event, Memory};
use order_judge::{Placing, first_overlap, places_of};
use std::alloc::Global;

// A verdict that tells a fault.
fn fault(kind: OrderKind, i: u32, j: u32) -> Verdict
    ensures { IsFault result kind i j }
{
    Verdict::Fault(OrderFault { kind, i, j })
}

// What is to be said of an order that holds each event once, whose events have these places.
fn check_placed(
    alloc: Global,
    log: &RunLog,
    order: &[Event],
    events: &[Event],
    places: &[u32],
) -> Result<Verdict, Memory>
    requires placed { IsPlaced log.now order.now events.now places.now }
    requires few { length order.now < 2 ^ 32 }
    ensures { IfOk result (λ answer. answer ≡ verdict_of log.now order.now) }
{
    if let Some((i, j)) = first_overtaken(order) {
        return Ok(fault(OrderKind::ThreadOrder, i, j));
    }
    let entries = place_entries(alloc, log, events)?;
    if let Some(i) = first_untimely(places, &entries) {
        return Ok(fault(OrderKind::ReadBeforeWrite, i, 0));
    }
    let ranges = ranges_of(alloc, places, &entries)?;
    if let Some((i, j)) = first_overlap(alloc, &ranges)? {
        return Ok(fault(OrderKind::Between, i, j));
    }
    let last_tags = place_last_tags(alloc, log, events)?;
    let ends = ends_of(alloc, places, &last_tags)?;
    if let Some((word, i)) = first_too_long(&ranges, &ends) {
        return Ok(fault(OrderKind::Final, word, i));
    }
    Ok(Verdict::Respects)
}

/// Checks whether the order respects the log: it holds each event of the log once, events of one thread by rising number; each
/// read can see what it saw, with no other write between the write and the read; and the last writes of the words are those
/// that the log names. Else its first fault is told, in the order of kinds, and within a kind the first one.
pub fn check(alloc: Global, log: &RunLog, order: &[Event]) -> Result<Verdict, Memory>
    requires { length order.now < 2 ^ 32 }
    ensures first { IfOk result (λ answer. answer ≡ verdict_of log.now order.now) }
    ensures respects { IfOk result (λ answer. (answer ≡ verdict.Respects) ↔ Respects log.now order.now) }
{
    let events = list_events(alloc, log)?;
    let positions = positions_of(alloc, &events, order)?;
    match places_of(alloc, events.len() as u32, &positions)? {
        Placing::Placed(places) => check_placed(alloc, log, order, &events, &places),
        Placing::Unknown(k) => Ok(fault(OrderKind::Unknown, k, 0)),
        Placing::Twice(k) => Ok(fault(OrderKind::Twice, k, 0)),
        Placing::Missing(k) => Ok(fault(OrderKind::Missing, k, 0)),
    }
}
