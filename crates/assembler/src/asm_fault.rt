// Why a text says no program.
ghost use Rattle.std.specs.Prelude.{◌≡◌};
ghost use Rattle.assembler.specs.declared.asm_fault.AsmKind.TheVariants.{Memory};

use std::alloc::{AllocError, AllocFailed};

/// What is wrong with a line. The kinds have the numbers 1 to 10, in this order. A line is tested for them in the order
/// `NotAscii`, `Label`, `NoThread`, `LabelTwice`, `Mnemonic`, `Operand`, `Number`, `Undefined`, `TooMany`.
#[derive(Clone, Copy, Debug, PartialEq, Eq)]
pub enum AsmKind {
    /// A byte is none of tab, byte 13 and 32 to 126, be it in a comment. `halt ; naïve`
    NotAscii,
    /// The item's first word is neither a mnemonic nor a directive, or is a directive that may not stand here.
    /// `fetch r1`, or `.words 3` after another item, or `.init 0 1` in a thread
    Mnemonic,
    /// There are too few operands, or too many, or one is not formed as it must be. `mov r1`, `set r01 5`, `set r1 x`
    Operand,
    /// A number is out of its range. `set r1 4294967296`, `.words 0`, `.init 16 1` where there are 16 words, `jmp 5` in a
    /// thread of four instructions
    Number,
    /// The label's name is not formed as a name, or a directive follows it. `9x: halt`, `x: .thread`
    Label,
    /// An earlier line of the thread has this label. `x:` a second time
    LabelTwice,
    /// A target names no label of the thread. `jmp nowhere`
    Undefined,
    /// This is a sixteenth thread, or a thread's instruction number 4,097. `.thread` for the sixteenth time
    TooMany,
    /// A label or an instruction stands before the first thread, or the text has no thread. `halt` as the first line
    NoThread,
    /// A request for memory was refused. This is no line's fault.
    Memory,
}

impl AsmKind {
    ghost use Rattle.assembler.specs.Assembled.{number_of_kind};

    /// The number of the kind, from 1 to 10.
    pub fn code(&self) -> u8
        ensures { result ≡ number_of_kind self.now }
    {
        match self {
            AsmKind::NotAscii => 1,
            AsmKind::Mnemonic => 2,
            AsmKind::Operand => 3,
            AsmKind::Number => 4,
            AsmKind::Label => 5,
            AsmKind::LabelTwice => 6,
            AsmKind::Undefined => 7,
            AsmKind::TooMany => 8,
            AsmKind::NoThread => 9,
            AsmKind::Memory => 10,
        }
    }
}

impl From<AllocError> for AsmKind {
    ghost from_gives = { λ _ k. k ≡ Memory };

    fn from(_e: AllocError) -> AsmKind {
        AsmKind::Memory
    }
}

impl<T: Drop> From<AllocFailed<T>> for AsmKind {
    ghost from_gives = { λ _ k. k ≡ Memory };

    fn from(_e: AllocFailed<T>) -> AsmKind {
        AsmKind::Memory
    }
}

/// The first line at fault, from 1, and what is wrong with it; for the text `.thread`, `fetch r1` that is line 2 with kind
/// `Mnemonic`. A text without a thread is at fault at the line after its last. The line is 0 where memory was refused.
#[derive(Clone, Copy, Debug, PartialEq, Eq)]
pub struct AsmFault {
    pub line: u32,
    pub kind: AsmKind,
}

impl AsmFault {
    ghost use Rattle.assembler.specs.Assembled.{fault_at};

    /// What a line has wrong; refused memory is no line's fault.
    pub(crate) fn at(line: u32, kind: AsmKind) -> AsmFault
        ensures { result ≡ fault_at line kind }
    {
        match kind {
            AsmKind::Memory => AsmFault { line: 0, kind },
            _ => AsmFault { line, kind },
        }
    }
}

impl From<AllocError> for AsmFault {
    ghost use Rattle.std.specs.Prelude.{◌≡◌};
    ghost use Rattle.assembler.specs.Assembled.{out_of_memory};

    ghost from_gives = { λ _ fault. fault ≡ out_of_memory };

    fn from(_e: AllocError) -> AsmFault {
        AsmFault::at(0, AsmKind::Memory)
    }
}
