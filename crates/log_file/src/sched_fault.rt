// Why bytes are no schedule.
ghost use Rattle.std.specs.Prelude.{◌≡◌, ◌<◌, ◌^◌};
ghost use Rattle.log_file.specs.Schedules.{number_of_kind, fault, out_of_memory};

use std::alloc::{AllocError, AllocFailed};

/// What is wrong. The kinds have the numbers 1 to 5, in this order.
#[derive(Clone, Copy, Debug, PartialEq, Eq)]
pub enum SchedKind {
    /// The bytes end too early.
    Short,
    /// The bytes do not begin as a schedule does.
    Magic,
    /// A number is that of no event.
    Event,
    /// Bytes follow the last event.
    Long,
    /// A request for memory was refused.
    Memory,
}

impl SchedKind {
    /// The number of the kind, from 1 to 5.
    pub fn code(&self) -> u8
        ensures { result ≡ number_of_kind self.now }
    {
        match self {
            SchedKind::Short => 1,
            SchedKind::Magic => 2,
            SchedKind::Event => 3,
            SchedKind::Long => 4,
            SchedKind::Memory => 5,
        }
    }
}

/// The first fault of the bytes, and where it stands: at `Event` the event's place among the events, from 0, at `Short` and
/// `Long` the place where the bytes, or the schedule, end. It is 0 at `Magic` and at `Memory`.
#[derive(Clone, Copy, Debug, PartialEq, Eq)]
pub struct SchedFault {
    pub kind: SchedKind,
    pub at: u32,
}

impl SchedFault {
    // A fault at a place.
    pub(crate) fn new(kind: SchedKind, at: usize) -> SchedFault
        requires { at < 2 ^ 32 }
        ensures { result ≡ fault kind at }
    {
        SchedFault {
            kind,
            at: at as u32,
        }
    }
}

impl From<AllocError> for SchedFault {
    ghost from_gives = { λ _ e. e ≡ out_of_memory };

    fn from(_e: AllocError) -> SchedFault {
        SchedFault::new(SchedKind::Memory, 0)
    }
}

impl<T: Drop> From<AllocFailed<T>> for SchedFault {
    ghost from_gives = { λ _ e. e ≡ out_of_memory };

    fn from(_e: AllocFailed<T>) -> SchedFault {
        SchedFault::new(SchedKind::Memory, 0)
    }
}
