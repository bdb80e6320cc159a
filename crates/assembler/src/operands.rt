// The operands of an instruction.
ghost use Rattle.std.specs.Prelude.{◌≡◌, option_map};
ghost use Rattle.assembler.specs.Lines.{tokens_of};
ghost use Rattle.assembler.specs.Operands.{take_register, registers_of, greatest, name_value, imm_value, last_operand, instr_of};
ghost use Rattle.assembler.specs.SeenOperands.{registers_seen};
ghost use Rattle.assembler.specs.Seen.{scope_seen};

use crate::asm_fault::AsmKind;
use crate::lines::next_token;
use crate::numerals::number;
use crate::registers::Registers;
use crate::scope::Scope;
use crate::words::{is_name, register};
use machine::{Instr, Op};

// A register where one is used, and the bytes of the tokens after it.
fn take_register(used: bool, tokens: &[u8]) -> Option<(u8, &[u8])>
    ensures { option_map (λ p. (p.0, tokens_of p.1.now)) result ≡ take_register used (tokens_of tokens.now) }
{
    if !used {
        return Some((0, tokens));
    }
    match next_token(tokens) {
        None => None,
        Some((word, rest)) => match register(word) {
            None => None,
            Some(number) => Some((number, rest)),
        },
    }
}

// a, b and c in this order, each where the operation uses it.
fn registers(op: Op, tokens: &[u8]) -> Option<Registers<'_>>
    ensures { option_map registers_seen result ≡ registers_of op (tokens_of tokens.now) }
{
    let (a, rest) = take_register(op.uses_a(), tokens)?;
    let (b, rest) = take_register(op.uses_b(), rest)?;
    let (c, rest) = take_register(op.uses_c(), rest)?;
    Some(Registers { a, b, c, rest })
}

fn name_value(is_target: bool, scope: &Scope<'_>, word: &[u8]) -> Result<u32, AsmKind>
    ensures { result ≡ name_value is_target (scope_seen scope.now).labels word.now }
{
    if !(is_target && is_name(word)) {
        return Err(AsmKind::Operand);
    }
    match scope.find(word) {
        None => Err(AsmKind::Undefined),
        Some(label) => Ok(label.place),
    }
}

fn greatest(is_target: bool, len: u32) -> u32
    ensures { result ≡ greatest is_target len }
{
    if is_target { len } else { 4_294_967_295 }
}

// The value of the operand imm.
fn imm_value(is_target: bool, scope: &Scope<'_>, word: &[u8]) -> Result<u32, AsmKind>
    ensures { result ≡ imm_value is_target (scope_seen scope.now) word.now }
{
    match number(word) {
        None => name_value(is_target, scope, word),
        Some(n) if n > u64::from(greatest(is_target, scope.len)) => Err(AsmKind::Number),
        Some(n) => Ok(n as u32),
    }
}

// imm where it is used, and nothing after it.
fn last_operand(
    used: bool,
    is_target: bool,
    scope: &Scope<'_>,
    tokens: &[u8],
) -> Result<u32, AsmKind>
    ensures { result ≡ last_operand used is_target (scope_seen scope.now) (tokens_of tokens.now) }
{
    match next_token(tokens) {
        None if used => Err(AsmKind::Operand),
        None => Ok(0),
        Some((word, rest)) => {
            if !used || next_token(rest).is_some() {
                return Err(AsmKind::Operand);
            }
            imm_value(is_target, scope, word)
        }
    }
}

/// An instruction of the thread with this scope.
pub fn read_instr(op: Op, scope: &Scope<'_>, tokens: &[u8]) -> Result<Instr, AsmKind>
    ensures { result ≡ instr_of op (scope_seen scope.now) (tokens_of tokens.now) }
{
    match registers(op, tokens) {
        None => Err(AsmKind::Operand),
        Some(Registers { a, b, c, rest }) => match last_operand(
            op.uses_imm(),
            op.jumps(),
            scope,
            rest,
        ) {
            Err(kind) => Err(kind),
            Ok(imm) => Ok(Instr { op, a, b, c, imm }),
        },
    }
}
