// Bytes are put into a sink piece by piece.
ghost use Rattle.light_base.specs.Sinks.{PutAll};

use crate::{Sink, SinkFault};

/// Puts all the bytes. After a refusal the sink has taken a front of them, and not all of them.
pub fn put_all<K: Sink>(out: &mut K, bytes: &[u8]) -> Result<(), SinkFault>
    ensures { PutAll (K.told out.old) (K.told out.new) bytes.now result }
{
    let mut rest = bytes;
    while !rest.is_empty() {
        let count = out.put(rest)?;
        rest = rest.split_at(count).1;
    }
    Ok(())
}
