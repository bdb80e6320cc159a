// Why bytes are no inputs.
ghost use Rattle.std.specs.Prelude.{◌≡◌};
ghost use Rattle.machine.specs.InputTexts.{number_of_kind, fault_of, out_of_memory};

use std::alloc::{AllocError, AllocFailed};

/// What is wrong. The kinds have the numbers 1 to 5, in this order.
#[derive(Clone, Copy, Debug, PartialEq, Eq)]
pub enum InputKind {
    /// The bytes end too early.
    Short,
    /// The bytes do not begin as inputs do.
    Magic,
    /// There are no lists, or too many of them, or a list has too many numbers.
    Counts,
    /// Bytes follow the last number.
    Long,
    /// A request for memory was refused.
    Memory,
}

impl InputKind {
    /// The number of the kind, from 1 to 5.
    pub fn code(&self) -> u8
        ensures { result ≡ number_of_kind self.now }
    {
        match self {
            InputKind::Short => 1,
            InputKind::Magic => 2,
            InputKind::Counts => 3,
            InputKind::Long => 4,
            InputKind::Memory => 5,
        }
    }
}

/// The first fault of the bytes.
#[derive(Clone, Copy, Debug, PartialEq, Eq)]
pub struct InputFault {
    pub kind: InputKind,
}

impl InputFault {
    // The fault of this kind.
    pub(crate) fn of(kind: InputKind) -> InputFault
        ensures { result ≡ fault_of kind }
    {
        InputFault { kind }
    }
}

impl From<AllocError> for InputFault {
    ghost from_gives = { λ _ e. e ≡ out_of_memory };

    fn from(_e: AllocError) -> InputFault {
        InputFault::of(InputKind::Memory)
    }
}

impl<T: Drop> From<AllocFailed<T>> for InputFault {
    ghost from_gives = { λ _ e. e ≡ out_of_memory };

    fn from(_e: AllocFailed<T>) -> InputFault {
        InputFault::of(InputKind::Memory)
    }
}
