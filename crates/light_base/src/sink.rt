// Where text goes, whatever takes it.
ghost use Rattle.std.specs.Prelude.{◌≡◌, ◌<◌, ◌^◌, length};
ghost use Rattle.light_base.specs.Sinks.{SinkTold, Put};

use std::alloc::AllocError;

/// Why a sink took nothing.
#[derive(Clone, Copy, Debug, PartialEq, Eq)]
pub enum SinkFault {
    /// The sink counted a fault in this call.
    Failed,
    /// A request for memory was refused.
    Memory,
}

impl From<AllocError> for SinkFault {
    ghost use Rattle.light_base.specs.declared.sink.SinkFault.TheVariants.{Memory};

    ghost from_gives = { λ _ e. e ≡ Memory };

    fn from(_: AllocError) -> SinkFault {
        SinkFault::Memory
    }
}

/// What takes bytes, in pieces.
///
/// Whether a sink tells what it took never changes. One that takes no byte of a piece counts one fault and answers
/// `Failed`, and no other answer counts one. The count stands still at 2^64 - 1.
pub trait Sink {
    /// What it tells of itself.
    ghost told: { Self → SinkTold };

    /// Takes some of the bytes from the front, at least one, and says how many. After a refusal nothing was taken.
    fn put(&mut self, bytes: &[u8]) -> Result<usize, SinkFault>
        requires { 0 < length bytes.now }
        ensures put { Put (told self.old) (told self.new) bytes.now result }
        ensures counted { (told self.new).faults < 2 ^ 64 };
}
