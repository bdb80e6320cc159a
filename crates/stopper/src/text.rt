// How a thread stands, as text. After `Memory` the text has some front of a line more.
ghost use Rattle.std.specs.Prelude.{◌≡◌, ◌++◌, IfOk, OnOk};
ghost use Rattle.stopper.specs.Texts.{field, head_line, register_line, register_lines, run_line, run_lines, snap_text};

use crate::stop::Snap;
use light_base::{Memory, put_decimal};
use std::alloc::Global;

// Appends a name and its number.
fn put_field(text: &mut Vec<u8>, name: &[u8], n: u64) -> Result<(), Memory>
    ensures { OnOk result (text.new.items ≡ text.old.items ++ field name.now n) }
{
    text.extend_from_slice(name)?;
    put_decimal(text, n)
}

// Appends which thread it is, its step, and how many instructions it has finished.
fn put_head(text: &mut Vec<u8>, thread: u8, step: u32, instr: u32) -> Result<(), Memory>
    ensures { OnOk result (text.new.items ≡ text.old.items ++ head_line thread step instr) }
{
    put_field(text, b"thread ", u64::from(thread))?;
    put_field(text, b" step ", u64::from(step))?;
    put_field(text, b" instr ", u64::from(instr))?;
    text.push(b'\n')?;
    Ok(())
}

// Appends the line of a register.
fn put_register(text: &mut Vec<u8>, register: usize, value: u32) -> Result<(), Memory>
    ensures { OnOk result (text.new.items ≡ text.old.items ++ register_line register value) }
{
    put_field(text, b"r", register as u64)?;
    put_field(text, b" ", u64::from(value))?;
    text.push(b'\n')?;
    Ok(())
}

// Appends a line for each register.
fn put_registers(text: &mut Vec<u8>, registers: &[u32]) -> Result<(), Memory>
    ensures { OnOk result (text.new.items ≡ text.old.items ++ register_lines 0 registers.now) }
{
    for (register, value) in registers.iter().enumerate() {
        put_register(text, register, *value)?;
    }
    Ok(())
}

// Appends the line of a thread that was played so far.
fn put_run(text: &mut Vec<u8>, thread: usize, number: u32) -> Result<(), Memory>
    ensures { OnOk result (text.new.items ≡ text.old.items ++ run_line thread number) }
{
    put_field(text, b"run ", thread as u64)?;
    put_field(text, b" ", u64::from(number))?;
    text.push(b'\n')?;
    Ok(())
}

// Appends a line for each thread of which steps were played.
fn put_runs(text: &mut Vec<u8>, numbers: &[u32]) -> Result<(), Memory>
    ensures { OnOk result (text.new.items ≡ text.old.items ++ run_lines 0 numbers.now) }
{
    for (thread, number) in numbers.iter().enumerate() {
        if *number != 0 {
            put_run(text, thread, *number)?;
        }
    }
    Ok(())
}

/// How a thread stands right after its step, as text: a line `thread T step S instr I`, a line `rK V` for each of its 16 registers,
/// and a line `run U K` for each thread of which steps were played, with how many. The one error is want of memory.
#[tactic(auto, unfolding(crate::specs::Texts::snap_text))]
pub fn snap_text(alloc: Global, thread: u8, step: u32, snap: &Snap) -> Result<Vec<u8>, Memory>
    ensures { IfOk result (λ text. text.items ≡ snap_text thread step snap.now) }
{
    let mut text = Vec::new(alloc);
    put_head(&mut text, thread, step, snap.instr())?;
    put_registers(&mut text, snap.registers())?;
    put_runs(&mut text, snap.ran())?;
    Ok(text)
}
