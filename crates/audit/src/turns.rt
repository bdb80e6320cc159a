// The turns of a placing.
ghost use Rattle.std.specs.Prelude.{◌≡◌, ◌-◌, ◌<◌, ◌++◌, All, IfOk, OnOk, length, replicate, slice_index_or, slice_set};
ghost use Rattle.audit_laws.specs.Placings.{placing_turns};

use light_base::{Event, Memory};
use std::alloc::Global;

// Gives the event's thread turns up to and including this step, where it has taken so many.
fn go_on(turns: &mut Vec<u8>, taken: &mut Vec<u32>, event: Event) -> Result<(), Memory>
    requires { event.thread < length taken.old.items }
    ensures turns { OnOk result (turns.new.items ≡
        turns.old.items ++ replicate (event.step - slice_index_or taken.old.items event.thread 0) event.thread) }
    ensures taken { OnOk result (taken.new.items ≡ slice_set taken.old.items event.thread event.step) }
{
    let place = usize::from(event.thread);
    let more = event.step.saturating_sub(taken[place]);
    turns.resize(turns.len() + more as usize, event.thread)?;
    taken[place] = event.step;
    Ok(())
}

/// The turns of an order of steps: the thread of each step, of so many threads, goes on up to and including that step. The one
/// error is want of memory.
pub fn turns_of(alloc: Global, threads: u8, order: &[Event]) -> Result<Vec<u8>, Memory>
    requires { All (λ event. event.thread < threads) order.now }
    ensures { IfOk result (λ turns. turns.items ≡ placing_turns threads order.now) }
{
    let mut taken = Vec::new(alloc);
    taken.resize(usize::from(threads), 0)?;
    let mut turns = Vec::new(alloc);
    for event in order {
        go_on(&mut turns, &mut taken, *event)?;
    }
    Ok(turns)
}
