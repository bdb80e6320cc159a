// A sink over any writer. It tells nothing of the bytes, but hands them to the writer.
ghost use Rattle.std.specs.Prelude.{◌≡◌, ◌<◌, ◌≤◌, ◌^◌, length, take, IfOk, IfSome, IfNone, OnErr};
ghost use Rattle.std.specs.Io.KnownBytes.{Keeps, Appends};
ghost use Rattle.light_base.specs.Sinks.{Put};
ghost use Rattle.light_cli.specs.Telling.{untold_bytes};

use light_base::{Sink, SinkFault};
use std::io::{ErrorKind, Write};

/// A sink that hands its pieces to a writer, and counts the writer's failures.
#[derive(Drop)]
pub struct StdSink<W> {
    writer: W,
    faults: u64,
    ghost counted: { faults < 2 ^ 64 },
}

impl<W> StdSink<W> {
    /// A sink over this writer, with no fault so far.
    pub fn new(writer: W) -> Self
        ensures writer { result.writer ≡ writer }
        ensures faults { result.faults ≡ 0 }
    {
        StdSink { writer, faults: 0 }
    }
}

// One write of the piece, asked again where a signal stopped it. None where the writer fails, or takes no byte.
fn write_some<W: Write>(writer: &mut W, bytes: &[u8]) -> Option<usize>
    ensures some { IfSome result (λ count. (1 ≤ count) × (count ≤ length bytes.now)) }
    ensures written { IfSome result (λ count. Appends (W.contents writer.old) (W.contents writer.new) (take count bytes.now)) }
    ensures kept { IfNone result (Keeps (W.contents writer.old) (W.contents writer.new)) }
{
    for _ in 0..u64::MAX {
        match writer.write(bytes) {
            Ok(0) => return None,
            Ok(count) => return Some(count),
            Err(error) => {
                if error.kind() != ErrorKind::Interrupted {
                    return None;
                }
            }
        }
    }
    None
}

impl<W: Write> Sink for StdSink<W> {
    ghost told = { λ s. untold_bytes s.faults };

    fn put(&mut self, bytes: &[u8]) -> Result<usize, SinkFault>
        requires { 0 < length bytes.now }
        ensures put { Put (untold_bytes self.old.faults) (untold_bytes self.new.faults) bytes.now result }
        ensures counted { self.new.faults < 2 ^ 64 }

        // What is said to be taken is what the writer got.
        ensures written { IfOk result (λ count. Appends (W.contents self.old.writer) (W.contents self.new.writer) (take count bytes.now)) }
        ensures kept { OnErr result (Keeps (W.contents self.old.writer) (W.contents self.new.writer)) }
    {
        match write_some(&mut self.writer, bytes) {
            Some(count) => Ok(count),
            None => {
                self.faults = self.faults.saturating_add(1);
                Err(SinkFault::Failed)
            }
        }
    }
}
