// Why bytes are no image, or vectors no program.
ghost use Rattle.std.specs.Prelude.{◌≡◌};
ghost use Rattle.machine.specs.Faults.{number_of_kind, whole_fault};
ghost use Rattle.machine.specs.declared.image_fault.ImageKind.TheVariants.{Memory};

use std::alloc::{AllocError, AllocFailed};

/// What is wrong. The kinds have the numbers 1 to 9, in this order.
#[derive(Clone, Copy, Debug, PartialEq, Eq)]
pub enum ImageKind {
    /// The bytes end too early.
    Short,
    /// The bytes do not begin as an image does.
    Magic,
    /// There are no threads or no words, or too many of them, or a thread's code is too long.
    Counts,
    /// No operation has this code.
    Opcode,
    /// A field that is used has no register's number.
    Register,
    /// A field that is not used is not 0.
    Unused,
    /// A jump leads past the end of the code.
    Target,
    /// Bytes follow the last instruction.
    Long,
    /// A request for memory was refused.
    Memory,
}

impl ImageKind {
    /// The number of the kind, from 1 to 9.
    pub fn code(&self) -> u8
        ensures { result ≡ number_of_kind self.now }
    {
        match self {
            ImageKind::Short => 1,
            ImageKind::Magic => 2,
            ImageKind::Counts => 3,
            ImageKind::Opcode => 4,
            ImageKind::Register => 5,
            ImageKind::Unused => 6,
            ImageKind::Target => 7,
            ImageKind::Long => 8,
            ImageKind::Memory => 9,
        }
    }
}

/// The first fault, and the thread and the place of the instruction that has it. Both are 0 where the fault is no
/// instruction's: at `Short`, `Magic`, `Counts`, `Long` and `Memory`.
#[derive(Clone, Copy, Debug, PartialEq, Eq)]
pub struct ImageFault {
    pub kind: ImageKind,
    pub thread: u8,
    pub at: u16,
}

impl ImageFault {
    /// A fault that is no instruction's.
    pub fn whole(kind: ImageKind) -> ImageFault
        ensures { result ≡ whole_fault kind }
    {
        ImageFault {
            kind,
            thread: 0,
            at: 0,
        }
    }
}

impl From<AllocError> for ImageFault {
    ghost from_gives = { λ _ e. e ≡ whole_fault Memory };

    fn from(_e: AllocError) -> ImageFault {
        ImageFault::whole(ImageKind::Memory)
    }
}

impl<T: Drop> From<AllocFailed<T>> for ImageFault {
    ghost from_gives = { λ _ e. e ≡ whole_fault Memory };

    fn from(_e: AllocFailed<T>) -> ImageFault {
        ImageFault::whole(ImageKind::Memory)
    }
}
