// What an item is.
ghost use Rattle.std.specs.Prelude.{◌≡◌};

use machine::Op;

/// What the first word of an item begins.
#[derive(Clone, Copy, Debug, PartialEq, Eq)]
pub enum Head {
    /// There is no item.
    Nothing,
    Words,
    Init,
    Thread,
    Operation(Op),
    /// Neither a directive nor a mnemonic.
    Unknown,
}

impl Head {
    ghost use Rattle.assembler.specs.Words.{is_directive, is_operation, begins_thread, instructions_of};

    pub fn is_directive(self) -> bool
        ensures { result ≡ is_directive self }
    {
        matches!(self, Head::Words | Head::Init | Head::Thread)
    }

    pub fn is_operation(self) -> bool
        ensures { result ≡ is_operation self }
    {
        matches!(self, Head::Operation(_))
    }

    pub fn begins_thread(self) -> bool
        ensures { result ≡ begins_thread self }
    {
        matches!(self, Head::Thread)
    }

    /// How many instructions the item counts as, also where its first word is unknown.
    pub fn instructions(self) -> u32
        ensures { result ≡ instructions_of self }
    {
        match self {
            Head::Operation(_) | Head::Unknown => 1,
            Head::Nothing | Head::Words | Head::Init | Head::Thread => 0,
        }
    }
}
