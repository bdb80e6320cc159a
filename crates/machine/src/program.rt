// Programs: what a thread can be told to do, and the rules that a program keeps.
ghost use Rattle.std.specs.Prelude.{◌≡◌, ◌↔◌, ◌<◌, ◌≤◌, Some, true, length, map, SomeIff, IsOk};
ghost use Rattle.std.specs.List.{list_all};
ghost use Rattle.machine.specs.Programs.{AreLimits, IsProgram, code_lists, code_of, code_of_op, limits_of, op_of};
ghost use Rattle.machine.specs.Programs.{uses_a, uses_b, uses_c, uses_imm, jumps, has_registers, has_idle_zero, has_target};
ghost use Rattle.machine.specs.Faults.{instr_fault, code_fault, codes_fault, program_fault, checked, are_counts, is_short_code};

use crate::image_fault::{ImageFault, ImageKind};
use std::marker::Model;

/// What an instruction does. R(x) is the value of register x; sums, differences, products and shifts to the left are
/// modulo 2^32, and comparisons are unsigned.
#[derive(Clone, Copy, Debug, PartialEq, Eq)]
pub enum Op {
    /// The thread ends.
    Halt,
    /// R(a) becomes imm.
    Const,
    /// R(a) becomes R(b).
    Mov,
    /// R(a) becomes R(b) + R(c).
    Add,
    /// R(a) becomes R(b) - R(c).
    Sub,
    /// R(a) becomes R(b) * R(c).
    Mul,
    /// R(a) becomes the bits that R(b) and R(c) both have.
    And,
    /// R(a) becomes the bits that R(b) or R(c) has.
    Or,
    /// R(a) becomes the bits that one of R(b) and R(c) has.
    Xor,
    /// R(a) becomes R(b) shifted to the left by R(c) modulo 32.
    Shl,
    /// R(a) becomes R(b) shifted to the right by R(c) modulo 32; zeros come in.
    Shr,
    /// R(a) becomes R(b) + imm.
    Addi,
    /// The place becomes imm.
    Jmp,
    /// The place becomes imm where R(a) = R(b).
    Jeq,
    /// The place becomes imm where R(a) and R(b) differ.
    Jne,
    /// The place becomes imm where R(a) < R(b).
    Jlt,
    /// R(a) is put out.
    Out,
    /// R(a) becomes the word at R(b) + imm.
    Load,
    /// The word at R(b) + imm becomes R(a).
    Store,
    /// The word at R(b) + imm becomes R(a), and R(a) the value before.
    Xchg,
    /// The word at R(b) + imm is read. Where its value is not R(a), R(a) becomes it and register 15 becomes 0. Else, in a
    /// second step, the word becomes R(c) where nobody has written it since, and register 15 becomes 1; where somebody
    /// has, R(a) becomes the value found and then register 15 becomes 2.
    Cas,
    /// R(a) becomes the next number of the thread's input list.
    Input,
}

/// Every operation, in the order of their codes.
pub const OPS: [Op; 22] = [
    Op::Halt,
    Op::Const,
    Op::Mov,
    Op::Add,
    Op::Sub,
    Op::Mul,
    Op::And,
    Op::Or,
    Op::Xor,
    Op::Shl,
    Op::Shr,
    Op::Addi,
    Op::Jmp,
    Op::Jeq,
    Op::Jne,
    Op::Jlt,
    Op::Out,
    Op::Load,
    Op::Store,
    Op::Xchg,
    Op::Cas,
    Op::Input,
];

impl Op {
    /// The operation with this code; None where no operation has it.
    pub fn from_code(code: u8) -> Option<Op>
        ensures value { result ≡ op_of code }
        ensures exact { (op : Op) → (result ≡ Some op) ↔ (code ≡ code_of_op op) }
    {
        let at = usize::from(code);
        if at < OPS.len() { Some(OPS[at]) } else { None }
    }

    /// The number of the operation in an image.
    pub fn code(&self) -> u8
        ensures { result ≡ code_of_op self.now }
    {
        *self as u8
    }

    /// Whether the operation uses field a, as a register.
    pub fn uses_a(self) -> bool
        ensures { result ≡ uses_a self }
    {
        !matches!(self, Op::Halt | Op::Jmp)
    }

    /// Whether the operation uses field b, as a register.
    pub fn uses_b(self) -> bool
        ensures { result ≡ uses_b self }
    {
        !matches!(self, Op::Halt | Op::Const | Op::Jmp | Op::Out | Op::Input)
    }

    /// Whether the operation uses field c, as a register.
    pub fn uses_c(self) -> bool
        ensures { result ≡ uses_c self }
    {
        match self {
            Op::Add | Op::Sub | Op::Mul | Op::And | Op::Or | Op::Xor | Op::Shl | Op::Shr => true,
            Op::Cas => true,
            _ => false,
        }
    }

    /// Whether the operation uses imm, as a number or as a place.
    pub fn uses_imm(self) -> bool
        ensures { result ≡ uses_imm self }
    {
        match self {
            Op::Const | Op::Addi => true,
            Op::Load | Op::Store | Op::Xchg | Op::Cas => true,
            _ => self.jumps(),
        }
    }

    /// Whether imm is a place in the code.
    pub fn jumps(self) -> bool
        ensures { result ≡ jumps self }
    {
        matches!(self, Op::Jmp | Op::Jeq | Op::Jne | Op::Jlt)
    }
}

/// One instruction: what it does, and its operands. Operands that the operation does not use are 0.
#[derive(Clone, Copy, Debug, PartialEq, Eq)]
pub struct Instr {
    pub op: Op,
    pub a: u8,
    pub b: u8,
    pub c: u8,
    pub imm: u32,
}

/// What stands past the end of a code.
pub(crate) const HALT: Instr = Instr {
    op: Op::Halt,
    a: 0,
    b: 0,
    c: 0,
    imm: 0,
};

impl Instr {
    fn has_registers(&self) -> bool
        ensures { result ≡ has_registers self.now }
    {
        (!self.op.uses_a() || self.a < 16)
            && (!self.op.uses_b() || self.b < 16)
            && (!self.op.uses_c() || self.c < 16)
    }

    fn has_idle_zero(&self) -> bool
        ensures { result ≡ has_idle_zero self.now }
    {
        (self.op.uses_a() || self.a == 0)
            && (self.op.uses_b() || self.b == 0)
            && (self.op.uses_c() || self.c == 0)
            && (self.op.uses_imm() || self.imm == 0)
    }

    fn has_target(&self, len: usize) -> bool
        ensures { result ≡ has_target len self.now }
    {
        !self.op.jumps() || self.imm as usize <= len
    }

    // The first rule that the instruction breaks in a code of this length.
    pub(crate) fn fault(&self, len: usize) -> Option<ImageKind>
        ensures { result ≡ instr_fault len self.now }
    {
        if !self.has_registers() {
            Some(ImageKind::Register)
        } else if !self.has_idle_zero() {
            Some(ImageKind::Unused)
        } else if !self.has_target(len) {
            Some(ImageKind::Target)
        } else {
            None
        }
    }
}

/// Shared words with their initial values, and the code of each thread.
#[derive(Debug, Drop)]
pub struct Program {
    words: Vec<u32>,
    threads: Vec<Vec<Instr>>,
}

impl Model for Program {
    ghost use Rattle.std.specs.Prelude.{map};
    ghost use Rattle.machine.specs.Programs.{ProgramValue, IsProgram};

    ghost Value = { ProgramValue };

    ghost view = { λ p. record { words = p.words.items; threads = map (λ code. code.items) p.threads.items } };

    ghost invariant = { λ p. IsProgram (record { words = p.words.items; threads = map (λ code. code.items) p.threads.items }) };
}

impl Program {
    /// The program of these words and codes. An `Err` is the first fault: `Counts` where there are not 1 to 15 threads
    /// and 1 to 4,096 words, or a code has more than 4,096 instructions; then the first instruction that breaks a
    /// rule, with its thread and place, and within it `Register`, `Unused`, `Target` in this order.
    pub fn of(words: Vec<u32>, threads: Vec<Vec<Instr>>) -> Result<Program, ImageFault>
        ensures value { result ≡ checked (record { words = words.items; threads = code_lists threads.items }) }
        ensures exact { IsOk result ↔ IsProgram (record { words = words.items; threads = code_lists threads.items }) }
    {
        match fault_of(&words, &threads) {
            Some(fault) => Err(fault),
            None => Ok(Program { words, threads }),
        }
    }

    // The program of words and codes that keep the rules.
    pub(crate) fn sound(words: Vec<u32>, threads: Vec<Vec<Instr>>) -> Program
        requires { IsProgram (record { words = words.items; threads = code_lists threads.items }) }
        ensures { result ≡ record { words = words.items; threads = code_lists threads.items } }
    {
        Program { words, threads }
    }

    /// The initial values of the words.
    pub fn words(&self) -> &[u32]
        ensures value { result.now ≡ self.now.words }
        ensures rules { IsProgram self.now }
    {
        &self.words
    }

    /// The code of a thread.
    pub fn threads(&self, thread: usize) -> &[Instr]
        requires { thread < length self.now.threads }
        ensures value { result.now ≡ code_of self.now thread }
        ensures rules { IsProgram self.now }
    {
        &self.threads[thread]
    }

    /// How many threads there are.
    pub fn threads_count(&self) -> usize
        ensures value { result ≡ length self.now.threads }
        ensures rules { IsProgram self.now }
    {
        self.threads.len()
    }

    /// The initial values of the words, and the code of each thread.
    pub fn into_parts(self) -> (Vec<u32>, Vec<Vec<Instr>>)
        ensures words { result.0.items ≡ self.words }
        ensures threads { code_lists result.1.items ≡ self.threads }
        ensures rules { IsProgram self }
    {
        (self.words, self.threads)
    }
}

// The first fault of an instruction of a thread's code.
fn code_fault(thread: u8, code: &[Instr]) -> Option<ImageFault>
    requires { length code.now ≤ 4096 }
    ensures { result ≡ code_fault (length code.now) thread 0 code.now }
{
    for (at, instr) in code.iter().enumerate() {
        if let Some(kind) = instr.fault(code.len()) {
            return Some(ImageFault {
                kind,
                thread,
                at: at as u16,
            });
        }
    }
    None
}

// The first fault of an instruction.
fn codes_fault(threads: &[Vec<Instr>]) -> Option<ImageFault>
    requires count { length threads.now ≤ 15 }
    requires short { list_all is_short_code (code_lists threads.now) ≡ true }
    ensures { result ≡ codes_fault 0 (code_lists threads.now) }
{
    for (thread, code) in threads.iter().enumerate() {
        if let Some(fault) = code_fault(thread as u8, code) {
            return Some(fault);
        }
    }
    None
}

fn are_short(threads: &[Vec<Instr>]) -> bool
    ensures { result ≡ list_all is_short_code (code_lists threads.now) }
{
    for code in threads {
        if code.len() > 4096 {
            return false;
        }
    }
    true
}

// Whether there are 1 to 15 threads and 1 to 4,096 words.
pub(crate) fn are_counts(threads: usize, words: usize) -> bool
    ensures { result ≡ are_counts threads words }
{
    0 < threads && threads <= 15 && 0 < words && words <= 4096
}

#[tactic(auto, unfolding(crate::specs::Faults::program_fault))]
fn fault_of(words: &[u32], threads: &[Vec<Instr>]) -> Option<ImageFault>
    ensures { result ≡ program_fault (record { words = words.now; threads = code_lists threads.now }) }
{
    if !are_counts(threads.len(), words.len()) || !are_short(threads) {
        return Some(ImageFault::whole(ImageKind::Counts));
    }
    codes_fault(threads)
}

/// The most memory steps that limits may allow.
const MOST_STEPS: u32 = 268_435_455;

/// The most instructions.
const MOST_INSTR: u32 = 1_073_741_824;

/// The most log entries.
const MOST_ENTRIES: u32 = 16_384;

/// How much a thread may do at most.
#[derive(Clone, Copy, Debug, PartialEq, Eq)]
pub struct Limits {
    steps: u32,
    instr: u32,
    entries: u32,
}

impl Model for Limits {
    ghost use Rattle.machine.specs.Programs.{LimitsValue, AreLimits};

    ghost Value = { LimitsValue };

    ghost view = { λ l. record { steps = l.steps; instr = l.instr; entries = l.entries } };

    ghost invariant = { λ l. AreLimits (record { steps = l.steps; instr = l.instr; entries = l.entries }) };

    ghost inverse = { λ l. record { steps = l.steps; instr = l.instr; entries = l.entries } };
}

impl Limits {
    /// Limits of a thread: at most so many memory steps, instructions and log entries. None exactly where steps is over
    /// 268,435,455, instr over 1,073,741,824 or entries over 16,384.
    pub fn new(steps: u32, instr: u32, entries: u32) -> Option<Limits>
        ensures { SomeIff result (AreLimits (limits_of steps instr entries)) (limits_of steps instr entries) }
    {
        if steps > MOST_STEPS || instr > MOST_INSTR || entries > MOST_ENTRIES {
            return None;
        }
        Some(Limits {
            steps,
            instr,
            entries,
        })
    }

    /// The most memory steps.
    pub fn steps(&self) -> u32
        ensures value { result ≡ self.now.steps }
        ensures rules { AreLimits self.now }
    {
        self.steps
    }

    /// The most instructions.
    pub fn instr(&self) -> u32
        ensures value { result ≡ self.now.instr }
        ensures rules { AreLimits self.now }
    {
        self.instr
    }

    /// The most log entries.
    pub fn entries(&self) -> u32
        ensures value { result ≡ self.now.entries }
        ensures rules { AreLimits self.now }
    {
        self.entries
    }
}
