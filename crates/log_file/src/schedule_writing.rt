// Writing an order of events.
ghost use Rattle.std.specs.Prelude.{◌≡◌, ◌<◌, ◌++◌, All, length, IfOk, OnOk};
ghost use Rattle.std.specs.List.{flat_map};
ghost use Rattle.light_base.specs.Tags.{HasTag, step_end};
ghost use Rattle.log_file.specs.Schedules.{IsSchedule, event_bytes};

use light_base::{Event, Memory, put_u32};
use std::alloc::Global;

/// The text of an order: fewer than 2^28 events, each of which has a tag. `read_schedule` gives the order back: these bytes
/// are its text, and the text of an order is read as this order.
pub fn write_schedule(alloc: Global, order: &[Event]) -> Result<Vec<u8>, Memory>
    requires events { All HasTag order.now }
    requires few { length order.now < step_end }
    ensures { IfOk result (λ bytes. IsSchedule bytes.items order.now) }
{
    let mut out = Vec::with_capacity(alloc, 8 + 4 * order.len())?;
    out.extend_from_slice(b"LSC1")?;
    put_u32(&mut out, order.len() as u32)?;
    put_events(&mut out, order)?;
    Ok(out)
}

fn put_events(out: &mut Vec<u8>, order: &[Event]) -> Result<(), Memory>
    requires { All HasTag order.now }
    ensures { OnOk result (out.new.items ≡ out.old.items ++ flat_map event_bytes order.now) }
{
    for event in order {
        put_u32(out, event.tag().bits())?;
    }
    Ok(())
}
