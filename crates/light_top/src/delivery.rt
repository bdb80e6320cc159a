// What a command gives is saved and printed.
ghost use Rattle.light_top.specs.Statuses.{status_of};
ghost use Rattle.light_top.specs.Outside.{◌and◌};
ghost use Rattle.light_top.specs.Delivery.{Delivered};

use crate::Status;
use crate::output::Output;
use light_base::{Sink, SinkFault, Store, StoreFault, put_all};

/// Saves the file of an output, if it has one, and then prints the text.
pub fn deliver<S: Store, K: Sink>(
    store: &mut S,
    out: &mut K,
    output: &Output<'_>,
) -> Result<(), Status>
    ensures { Delivered output.now (S.told store.old and K.told out.old) (S.told store.new and K.told out.new) (status_of result) }
{
    if let Some(saved) = &output.saved {
        match store.save(saved.name.as_str(), saved.bytes.as_slice()) {
            Ok(()) => {}
            Err(StoreFault::Failed) => return Err(Status::StoreFault),
            Err(_) => return Err(Status::Memory),
        }
    }
    match put_all(out, output.text.as_slice()) {
        Ok(()) => Ok(()),
        Err(SinkFault::Failed) => Err(Status::SinkFault),
        Err(SinkFault::Memory) => Err(Status::Memory),
    }
}
