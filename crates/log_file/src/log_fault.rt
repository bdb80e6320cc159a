// Why bytes are no log.
ghost use Rattle.std.specs.Prelude.{◌≡◌, ◌<◌, ◌^◌};
ghost use Rattle.log_file.specs.LogFaults.{number_of_kind, fault, out_of_memory};

use std::alloc::{AllocError, AllocFailed};

/// What is wrong. The kinds have the numbers 1 to 12, in this order.
#[derive(Clone, Copy, Debug, PartialEq, Eq)]
pub enum LogKind {
    /// The bytes end too early.
    Short,
    /// The bytes do not begin as a log of the version does.
    Magic,
    /// A number is out of range: of threads, of words, a limit, or what a thread's header counts.
    Counts,
    /// No end has this number, or its address is not what it must be.
    EndCode,
    /// An entry's first step is not greater than that of the entry before it, or is 0.
    Order,
    /// An entry's first step is after its last, or its last is no step that its thread took.
    Range,
    /// A tag names no step that a thread took.
    Source,
    /// There is no such word.
    Word,
    /// An earlier entry of the thread has the same word and source.
    Twice,
    /// An earlier entry of the thread and of the word ends no earlier than this one begins.
    Overlap,
    /// Bytes follow the last number.
    Long,
    /// A request for memory was refused.
    Memory,
}

impl LogKind {
    /// The number of the kind, from 1 to 12.
    pub fn code(&self) -> u8
        ensures { result ≡ number_of_kind self.now }
    {
        match self {
            LogKind::Short => 1,
            LogKind::Magic => 2,
            LogKind::Counts => 3,
            LogKind::EndCode => 4,
            LogKind::Order => 5,
            LogKind::Range => 6,
            LogKind::Source => 7,
            LogKind::Word => 8,
            LogKind::Twice => 9,
            LogKind::Overlap => 10,
            LogKind::Long => 11,
            LogKind::Memory => 12,
        }
    }
}

/// The first fault of the bytes, and where it stands: the first byte of the field, header, tag or entry that has it, and
/// at `Short` and `Long` the place where the bytes, or the log, end. It is 0 at `Memory`.
#[derive(Clone, Copy, Debug, PartialEq, Eq)]
pub struct LogFault {
    pub kind: LogKind,
    pub at: u32,
}

impl LogFault {
    // A fault at a place.
    pub(crate) fn new(kind: LogKind, at: usize) -> LogFault
        requires { at < 2 ^ 32 }
        ensures { result ≡ fault kind at }
    {
        LogFault {
            kind,
            at: at as u32,
        }
    }
}

impl From<AllocError> for LogFault {
    ghost from_gives = { λ _ e. e ≡ out_of_memory };

    fn from(_e: AllocError) -> LogFault {
        LogFault::new(LogKind::Memory, 0)
    }
}

impl<T: Drop> From<AllocFailed<T>> for LogFault {
    ghost from_gives = { λ _ e. e ≡ out_of_memory };

    fn from(_e: AllocFailed<T>) -> LogFault {
        LogFault::new(LogKind::Memory, 0)
    }
}
