// The program that a text says.
ghost use Rattle.std.specs.Prelude.{◌≡◌, ◌<◌, ◌⊎◌, true, length, Ok, Err, IfOk, IfErr, MatchResult};
ghost use Rattle.machine.specs.Programs.{IsProgram};
ghost use Rattle.assembler.specs.Assembled.{assembled, finished, out_of_memory, program_of};
ghost use Rattle.assembler.specs.Laws.{IsLineFault};
ghost use Rattle.assembler.specs.SeenProgress.{progress_of};

use crate::asm_fault::{AsmFault, AsmKind};
use crate::assembly::Assembly;
use crate::lines::split_line;
use machine::Program;
use std::alloc::Global;

// The program, after the last line; the line after that has this number.
fn finish(alloc: Global, mut assembly: Assembly<'_>, line: u32) -> Result<Program, AsmFault>
    requires { assembly.has_begun ≡ true → IsProgram (program_of (progress_of assembly)) }
    ensures ok { IfOk result (λ program. finished (progress_of assembly.entry) line ≡ Ok program) }
    ensures err { IfErr result (λ fault. (fault ≡ out_of_memory) ⊎ (finished (progress_of assembly.entry) line ≡ Err fault)) }
{
    if !assembly.has_begun {
        return Err(AsmFault::at(line, AsmKind::NoThread));
    }
    assembly.end_thread(alloc)?;
    match Program::of(assembly.words, assembly.done) {
        Ok(program) => Ok(program),
        Err(_) => unreachable!(),
    }
}

/// The program that a text says. An `Err` is the first line at fault, with the first fault that it has in the order
/// `NotAscii`, `Label`, `NoThread`, `LabelTwice`, `Mnemonic`, `Operand`, `Number`, `Undefined`, `TooMany`; or `Memory`
/// with the line 0, where a request for memory was refused.
pub fn assemble(alloc: Global, text: &[u8]) -> Result<Program, AsmFault>
    requires { length text.now < 4294967295 }
    ensures ok { IfOk result (λ program. assembled text.now ≡ Ok program) }
    ensures err { IfErr result (λ fault. (fault ≡ out_of_memory) ⊎ (assembled text.now ≡ Err fault)) }
    // Want of memory is no line's fault, and every other fault is one of a line, or of the line after the last.
    ensures line { IfErr result (λ fault. (fault ≡ out_of_memory) ⊎ IsLineFault text.now fault) }
{
    let mut assembly = Assembly::start(alloc)?;
    let mut line: u32 = 1;
    let mut rest = text;
    while !rest.is_empty() {
        let (bytes, after) = split_line(rest);
        if let Err(kind) = assembly.take_line(alloc, line, bytes, after) {
            return Err(AsmFault::at(line, kind));
        }
        line += 1;
        rest = after;
    }
    finish(alloc, assembly, line)
}
