// Writing the image of a program.
ghost use Rattle.std.specs.Prelude.{◌≡◌, ◌++◌, ◌^◌, ◌<◌, ◌≤◌, All, IfOk, OnOk, length, sum_by};
ghost use Rattle.std.specs.List.{flat_map};
ghost use Rattle.std.specs.Int.{w32, to_be_bytes};
ghost use Rattle.machine.specs.Images.{magic, counts_image, length_image, instr_image, code_image, image_of, IsImage};

use crate::program::{Instr, Program};
use light_base::{Memory, put_u16, put_u32};
use std::alloc::Global;

/// The first four bytes of each image.
const MAGIC: [u8; 4] = *b"LIM1";

// How many instructions all threads have.
fn instr_count(program: &Program) -> usize
    ensures value { result ≡ sum_by length program.now.threads }
    ensures most { result ≤ 61440 }
{
    let mut count = 0;
    for thread in 0..program.threads_count() {
        count += program.threads(thread).len();
    }
    count
}

// How many bytes the image of a program has.
fn image_len(program: &Program) -> usize
    ensures { result ≡ length (image_of program.now) }
{
    let threads = program.threads_count();
    7 + 2 * threads + 4 * program.words().len() + 8 * instr_count(program)
}

// Appends what stands before the lengths.
fn put_counts(out: &mut Vec<u8>, program: &Program) -> Result<(), Memory>
    ensures { OnOk result (out.new.items ≡ out.old.items ++ (magic ++ counts_image program.now)) }
{
    out.extend_from_slice(&MAGIC)?;
    out.push(program.threads_count() as u8)?;
    put_u16(out, program.words().len() as u16)
}

// Appends the length of each code.
fn put_lengths(out: &mut Vec<u8>, program: &Program) -> Result<(), Memory>
    ensures { OnOk result (out.new.items ≡ out.old.items ++ flat_map length_image program.now.threads) }
{
    for thread in 0..program.threads_count() {
        put_u16(out, program.threads(thread).len() as u16)?;
    }
    Ok(())
}

// Appends the initial values.
fn put_words(out: &mut Vec<u8>, words: &[u32]) -> Result<(), Memory>
    ensures written { OnOk result (out.new.items ≡ out.old.items ++ flat_map (to_be_bytes w32) words.now) }
    ensures numbers { All (λ word. word < 2 ^ 32) words.now }
{
    for word in words {
        put_u32(out, *word)?;
    }
    Ok(())
}

fn put_instr(out: &mut Vec<u8>, instr: &Instr) -> Result<(), Memory>
    ensures written { OnOk result (out.new.items ≡ out.old.items ++ instr_image instr.now) }
    ensures number { OnOk result (instr.now.imm < 2 ^ 32) }
{
    out.push(instr.op.code())?;
    out.push(instr.a)?;
    out.push(instr.b)?;
    out.push(instr.c)?;
    put_u32(out, instr.imm)
}

fn put_code(out: &mut Vec<u8>, code: &[Instr]) -> Result<(), Memory>
    ensures written { OnOk result (out.new.items ≡ out.old.items ++ code_image code.now) }
    ensures numbers { OnOk result (All (λ (i : Instr). i.imm < 2 ^ 32) code.now) }
{
    for instr in code {
        put_instr(out, instr)?;
    }
    Ok(())
}

// Appends the codes, thread after thread.
fn put_codes(out: &mut Vec<u8>, program: &Program) -> Result<(), Memory>
    ensures written { OnOk result (out.new.items ≡ out.old.items ++ flat_map code_image program.now.threads) }
    ensures numbers { OnOk result (All (All (λ (i : Instr). i.imm < 2 ^ 32)) program.now.threads) }
{
    for thread in 0..program.threads_count() {
        put_code(out, program.threads(thread))?;
    }
    Ok(())
}

/// The image of a program. `read_image` gives the program back: these bytes are its image, and the image of a program
/// is read as this program.
pub fn write_image(alloc: Global, program: &Program) -> Result<Vec<u8>, Memory>
    ensures { IfOk result (λ bytes. IsImage bytes.items program.now) }
{
    let mut out = Vec::with_capacity(alloc, image_len(program))?;
    put_counts(&mut out, program)?;
    put_lengths(&mut out, program)?;
    put_words(&mut out, program.words())?;
    put_codes(&mut out, program)?;
    Ok(out)
}
