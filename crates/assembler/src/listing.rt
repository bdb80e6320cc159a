// The canonical text of a program.
ghost use Rattle.std.specs.Prelude.{◌≡◌, ◌++◌, ◌<◌, ◌^◌, All, Ok, length, flat_map, IfOk, OnOk};
ghost use Rattle.machine.specs.declared.program.Instr.{Instr};
ghost use Rattle.assembler.specs.Assembled.{assembled};
ghost use Rattle.assembler.specs.Canonical.{spaced, line_end, words_line, init_text, init_lines, register_text, number_text, instr_line, thread_text, canonical};
ghost use Rattle.std.specs.Prelude.{decimal};

use crate::mnemonic::mnemonic;
use light_base::{Memory, put_decimal};
use machine::{Instr, Program};
use std::alloc::Global;

// A number, and a space before it.
fn put_number(out: &mut Vec<u8>, n: u64) -> Result<(), Memory>
    ensures { OnOk result (out.new.items ≡ out.old.items ++ spaced (decimal n)) }
{
    out.push(b' ')?;
    put_decimal(out, n)
}

fn put_words_line(out: &mut Vec<u8>, words: usize) -> Result<(), Memory>
    ensures { OnOk result (out.new.items ≡ out.old.items ++ words_line words) }
{
    out.extend_from_slice(b".words")?;
    put_number(out, words as u64)?;
    out.push(b'\n')?;
    Ok(())
}

// A line for a word whose value is not 0.
fn put_init(out: &mut Vec<u8>, word: usize, value: u32) -> Result<(), Memory>
    ensures { OnOk result (out.new.items ≡ out.old.items ++ init_text word value) }
{
    if value != 0 {
        out.extend_from_slice(b".init")?;
        put_number(out, word as u64)?;
        put_number(out, u64::from(value))?;
        out.push(b'\n')?;
    }
    Ok(())
}

fn put_inits(out: &mut Vec<u8>, words: &[u32]) -> Result<(), Memory>
    ensures written { OnOk result (out.new.items ≡ out.old.items ++ init_lines 0 words.now) }
    ensures numbers { All (λ word. word < 2 ^ 32) words.now }
{
    for (word, value) in words.iter().enumerate() {
        put_init(out, word, *value)?;
    }
    Ok(())
}

// A register where it is used.
fn put_register(out: &mut Vec<u8>, used: bool, register: u8) -> Result<(), Memory>
    ensures { OnOk result (out.new.items ≡ out.old.items ++ register_text used register) }
{
    if used {
        out.extend_from_slice(b" r")?;
        put_decimal(out, u64::from(register))?;
    }
    Ok(())
}

// A number where it is used.
fn put_imm(out: &mut Vec<u8>, used: bool, imm: u32) -> Result<(), Memory>
    ensures { OnOk result (out.new.items ≡ out.old.items ++ number_text used imm) }
{
    if used {
        put_number(out, u64::from(imm))?;
    }
    Ok(())
}

fn put_instr(out: &mut Vec<u8>, instr: &Instr) -> Result<(), Memory>
    ensures written { OnOk result (out.new.items ≡ out.old.items ++ instr_line instr.now) }
    ensures number { OnOk result (instr.now.imm < 2 ^ 32) }
{
    let op = instr.op;
    out.extend_from_slice(mnemonic(op))?;
    put_register(out, op.uses_a(), instr.a)?;
    put_register(out, op.uses_b(), instr.b)?;
    put_register(out, op.uses_c(), instr.c)?;
    put_imm(out, op.uses_imm(), instr.imm)?;
    out.push(b'\n')?;
    Ok(())
}

fn put_code(out: &mut Vec<u8>, code: &[Instr]) -> Result<(), Memory>
    ensures written { OnOk result (out.new.items ≡ out.old.items ++ flat_map instr_line code.now) }
    ensures numbers { OnOk result (All (λ (i : Instr). i.imm < 2 ^ 32) code.now) }
{
    for instr in code {
        put_instr(out, instr)?;
    }
    Ok(())
}

fn put_thread(out: &mut Vec<u8>, code: &[Instr]) -> Result<(), Memory>
    ensures written { OnOk result (out.new.items ≡ out.old.items ++ thread_text code.now) }
    ensures numbers { OnOk result (All (λ (i : Instr). i.imm < 2 ^ 32) code.now) }
{
    out.extend_from_slice(b".thread\n")?;
    put_code(out, code)
}

// The threads in order.
fn put_threads(out: &mut Vec<u8>, program: &Program) -> Result<(), Memory>
    ensures written { OnOk result (out.new.items ≡ out.old.items ++ flat_map thread_text program.now.threads) }
    ensures numbers { OnOk result (All (All (λ (i : Instr). i.imm < 2 ^ 32)) program.now.threads) }
{
    for thread in 0..program.threads_count() {
        put_thread(out, program.threads(thread))?;
    }
    Ok(())
}

/// The program as text, in its one canonical form: `assemble` gives the program back.
pub fn list(alloc: Global, program: &Program) -> Result<Vec<u8>, Memory>
    ensures written { IfOk result (λ text. text.items ≡ canonical program.now) }
    ensures back { IfOk result (λ text. assembled text.items ≡ Ok program.now) }
{
    let mut out = Vec::new(alloc);
    put_words_line(&mut out, program.words().len())?;
    put_inits(&mut out, program.words())?;
    put_threads(&mut out, program)?;
    Ok(out)
}
