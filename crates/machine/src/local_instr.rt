// Instructions that only compute or jump.
ghost use Rattle.std.specs.Prelude.{◌≡◌, ◌+◌, ◌<◌, if◌then◌else◌, slice_index};
ghost use Rattle.machine.specs.Turns.{Computed, NamesRegisters};

use crate::program::{Instr, Op};

/// What an instruction is to a thread that runs without the memory.
#[derive(Clone, Copy)]
pub(crate) enum Local {
    /// It only computed or jumped, and the thread goes on at this place.
    Next(usize),
    /// It takes a memory step.
    Memory,
    /// It ends the thread, puts out a value or takes an input number.
    Other,
}

// Where a jump leads: to its target where it is taken, and else to the next place.
fn jump(taken: bool, target: u32, place: usize) -> usize
    requires { place < 4096 }
    ensures { result ≡ (if taken then target else place + 1) }
{
    if taken { target as usize } else { place + 1 }
}

// The value of a register.
#[inline(always)]
fn value_of(registers: &[u32; 16], number: u8) -> u32
    requires { number < 16 }
    ensures { result ≡ slice_index registers.now number }
{
    registers[usize::from(number)]
}

// Takes an instruction that only computes or jumps; with another one nothing changes. Each arm reads the fields that it needs.
#[inline(always)]
pub(crate) fn compute(registers: &mut [u32; 16], place: usize, i: &Instr) -> Local
    requires place { place < 4096 }
    requires fields { NamesRegisters i.now }
    ensures { Computed i.now registers.old place result registers.new }
{
    let value = match i.op {
        Op::Const => i.imm,
        Op::Mov => value_of(registers, i.b),
        Op::Add => value_of(registers, i.b).wrapping_add(value_of(registers, i.c)),
        Op::Sub => value_of(registers, i.b).wrapping_sub(value_of(registers, i.c)),
        Op::Mul => value_of(registers, i.b).wrapping_mul(value_of(registers, i.c)),
        Op::And => value_of(registers, i.b) & value_of(registers, i.c),
        Op::Or => value_of(registers, i.b) | value_of(registers, i.c),
        Op::Xor => value_of(registers, i.b) ^ value_of(registers, i.c),
        Op::Shl => value_of(registers, i.b).wrapping_shl(value_of(registers, i.c)),
        Op::Shr => value_of(registers, i.b).wrapping_shr(value_of(registers, i.c)),
        Op::Addi => value_of(registers, i.b).wrapping_add(i.imm),
        Op::Jmp => return Local::Next(jump(true, i.imm, place)),
        Op::Jeq => {
            let equal = value_of(registers, i.a) == value_of(registers, i.b);
            return Local::Next(jump(equal, i.imm, place));
        }
        Op::Jne => {
            let other = value_of(registers, i.a) != value_of(registers, i.b);
            return Local::Next(jump(other, i.imm, place));
        }
        Op::Jlt => {
            let less = value_of(registers, i.a) < value_of(registers, i.b);
            return Local::Next(jump(less, i.imm, place));
        }
        Op::Load | Op::Store | Op::Xchg | Op::Cas => return Local::Memory,
        Op::Halt | Op::Out | Op::Input => return Local::Other,
    };
    registers[usize::from(i.a)] = value;
    Local::Next(place + 1)
}
