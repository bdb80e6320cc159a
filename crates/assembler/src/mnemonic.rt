// The table of mnemonics.
ghost use Rattle.assembler.specs.Mnemonics.{mnemonic_of};
ghost use Rattle.std.specs.Prelude.{◌≡◌};

use machine::Op;

/// The word for an operation.
pub fn mnemonic(op: Op) -> &'static [u8]
    ensures { result.now ≡ mnemonic_of op }
{
    match op {
        Op::Halt => b"halt",
        Op::Const => b"set",
        Op::Mov => b"mov",
        Op::Add => b"add",
        Op::Sub => b"sub",
        Op::Mul => b"mul",
        Op::And => b"and",
        Op::Or => b"or",
        Op::Xor => b"xor",
        Op::Shl => b"shl",
        Op::Shr => b"shr",
        Op::Addi => b"addi",
        Op::Jmp => b"jmp",
        Op::Jeq => b"jeq",
        Op::Jne => b"jne",
        Op::Jlt => b"jlt",
        Op::Out => b"out",
        Op::Load => b"load",
        Op::Store => b"store",
        Op::Xchg => b"xchg",
        Op::Cas => b"cas",
        Op::Input => b"in",
    }
}
