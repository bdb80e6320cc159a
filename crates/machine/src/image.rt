// Reading the image of a program.
ghost use Rattle.std.specs.Prelude.{◌≡◌, ◌≢◌, ◌↔◌, ℕ, ◌*◌, ◌≤◌, List, if◌then◌else◌, length, sum, Some, None, Ok, true, IfOk, IfErr, IfSome, OnSome, MatchResult};
ghost use Rattle.std.specs.List.{list_all};
ghost use Rattle.std.specs.Int.{w16};
ghost use Rattle.light_base.specs.Numbers.{IsBytes};
ghost use Rattle.machine.specs.Programs.{ProgramValue, IsProgram, code_lists};
ghost use Rattle.machine.specs.declared.image_fault.ImageKind.TheVariants.{Memory};
ghost use Rattle.machine.specs.Images.{HasNumbers, IsImage, image_of};
ghost use Rattle.machine.specs.Reading.{after, numbers_at};
ghost use Rattle.machine.specs.ImageReading.{Gives, out_of_memory, threads_in, words_in, counts_fault, instr_at, code_at, codes_at, image_read};
ghost use Rattle.machine.specs.Faults.{is_short_length, whole_fault};

use crate::image_fault::{ImageFault, ImageKind};
use crate::program::{Instr, Op, Program, are_counts};
use crate::reading::numbers_of;
use light_base::{u16_at, u32_at};
use std::alloc::{AllocError, Global};

// The number of threads and the number of words.
fn counts_of(bytes: &[u8]) -> Result<(usize, usize), ImageFault>
    ensures value { result ≡ after whole_fault (counts_fault bytes.now) (Ok (threads_in bytes.now, words_in bytes.now)) }
    ensures most { IfOk result (λ counts. (counts.0 ≤ 15) × (counts.1 ≤ 4096)) }
{
    let Some(words) = u16_at(bytes, 5) else {
        return Err(ImageFault::whole(ImageKind::Short));
    };
    if !bytes.starts_with(b"LIM1") {
        return Err(ImageFault::whole(ImageKind::Magic));
    }
    let threads = bytes[4] as usize;
    let words = words as usize;
    if !are_counts(threads, words) {
        return Err(ImageFault::whole(ImageKind::Counts));
    }
    Ok((threads, words))
}

// The lengths of so many codes.
fn lengths_of(alloc: Global, count: usize, bytes: &[u8]) -> Result<Vec<u16>, AllocError>
    requires { 2 * count ≤ length bytes.now }
    ensures value { IfOk result (λ lengths. lengths.items ≡ numbers_at w16 count bytes.now) }
    ensures count { IfOk result (λ lengths. length lengths.items ≡ count) }
{
    let mut lengths = Vec::with_capacity(alloc, count)?;
    for i in 0..count {
        lengths.push(u16_at(bytes, 2 * i).unwrap())?;
    }
    Ok(lengths)
}

// How many instructions codes of these lengths have. None where a code is too long.
fn total_of(lengths: &[u16]) -> Option<usize>
    requires { length lengths.now ≤ 15 }
    ensures value { result ≡ (if list_all is_short_length lengths.now then Some (sum lengths.now) else None) }
    ensures short { OnSome result (list_all is_short_length lengths.now ≡ true) }
    ensures most { IfSome result (λ total. total ≤ 61440) }
{
    let mut total = 0;
    for len in lengths {
        if *len > 4096 {
            return None;
        }
        total += *len as usize;
    }
    Some(total)
}

// The instruction of the first eight bytes, in a code of this length.
#[tactic(auto, unfolding(crate::specs::ImageReading::instr_at))]
fn instr_of(len: usize, bytes: &[u8]) -> Result<Instr, ImageKind>
    requires { 8 ≤ length bytes.now }
    ensures { result ≡ instr_at len bytes.now }
{
    let Some(op) = Op::from_code(bytes[0]) else {
        return Err(ImageKind::Opcode);
    };
    let instr = Instr {
        op,
        a: bytes[1],
        b: bytes[2],
        c: bytes[3],
        imm: u32_at(bytes, 4).unwrap(),
    };
    match instr.fault(len) {
        Some(kind) => Err(kind),
        None => Ok(instr),
    }
}

// The code of a thread, of this length.
fn code_of(alloc: Global, thread: u8, len: usize, bytes: &[u8]) -> Result<Vec<Instr>, ImageFault>
    requires short { len ≤ 4096 }
    requires there { 8 * len ≤ length bytes.now }
    ensures { Gives (λ code. code.items) result (code_at len thread 0 len bytes.now) }
{
    let mut code = Vec::with_capacity(alloc, len)?;
    for at in 0..len {
        match instr_of(len, &bytes[8 * at..]) {
            Ok(instr) => code.push(instr)?,
            Err(kind) => {
                return Err(ImageFault {
                    kind,
                    thread,
                    at: at as u16,
                });
            }
        }
    }
    Ok(code)
}

// The codes, which have these lengths.
fn codes_of(alloc: Global, lengths: &[u16], bytes: &[u8]) -> Result<Vec<Vec<Instr>>, ImageFault>
    requires count { length lengths.now ≤ 15 }
    requires short { list_all is_short_length lengths.now ≡ true }
    requires there { 8 * sum lengths.now ≤ length bytes.now }
    ensures { Gives (λ codes. code_lists codes.items) result (codes_at 0 lengths.now bytes.now) }
{
    let mut codes = Vec::with_capacity(alloc, lengths.len())?;
    let mut rest = bytes;
    for (thread, len) in lengths.iter().enumerate() {
        let len = *len as usize;
        let code = code_of(alloc, thread as u8, len, rest)?;
        codes.push(code)?;
        rest = rest.split_at(8 * len).1;
    }
    Ok(codes)
}

// The words and the codes of an image.
fn parts_of(alloc: Global, bytes: &[u8]) -> Result<(Vec<u32>, Vec<Vec<Instr>>), ImageFault>
    ensures { Gives (λ parts. record { words = parts.0.items; threads = code_lists parts.1.items }) result (image_read bytes.now) }
{
    let (threads, words) = counts_of(bytes)?;
    let words_place = 7 + 2 * threads;
    if bytes.len() < words_place {
        return Err(ImageFault::whole(ImageKind::Short));
    }
    let lengths = lengths_of(alloc, threads, &bytes[7..])?;
    let Some(total) = total_of(&lengths) else {
        return Err(ImageFault::whole(ImageKind::Counts));
    };
    let codes_place = words_place + 4 * words;
    let end = codes_place + 8 * total;
    if bytes.len() < end {
        return Err(ImageFault::whole(ImageKind::Short));
    }
    let codes = codes_of(alloc, &lengths, &bytes[codes_place..])?;
    if end < bytes.len() {
        return Err(ImageFault::whole(ImageKind::Long));
    }
    let words = numbers_of(alloc, words, &bytes[words_place..])?;
    Ok((words, codes))
}

/// The program whose image the bytes are. An `Err` is the first fault, in the order in which an image is tested: its
/// counts, its lengths, its instructions, its end; or `Memory`, where a request for memory was refused.
pub fn read_image(alloc: Global, bytes: &[u8]) -> Result<Program, ImageFault>
    // What is read is spelled so.
    ensures found { IfOk result (λ p. IsImage bytes.now p) }
    // The image of a program is read as this program, unless memory runs out.
    ensures only { (p : ProgramValue) → IsImage bytes.now p → MatchResult result (λ q. q ≡ p) (λ e. e ≡ out_of_memory) }
    // Bytes that are refused are the image of no program, unless memory ran out.
    ensures refused { IfErr result (λ e. e.kind ≢ Memory → (p : ProgramValue) → ¬ IsImage bytes.now p) }
    // Which fault it is.
    ensures exact { Gives (λ p. p) result (image_read bytes.now) }
{
    let (words, threads) = parts_of(alloc, bytes)?;
    Ok(Program::sound(words, threads))
}

/// Bytes are the image of a program exactly where they are read as this program.
pub fn image_law()
    ensures { (bytes : List ℕ) (p : ProgramValue) → IsBytes bytes → (image_read bytes ≡ Ok p) ↔ IsImage bytes p }
{}

/// Two programs with the same image are equal.
pub fn images_differ()
    ensures { (p q : ProgramValue) → IsProgram p → HasNumbers p → IsProgram q → HasNumbers q → image_of p ≡ image_of q → p ≡ q }
{}
