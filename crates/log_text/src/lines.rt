// One function for each kind of line. After `Memory` the text has some front of the line more.
ghost use Rattle.std.specs.Prelude.{◌≡◌, ◌++◌, OnOk, length};
ghost use Rattle.std.specs.List.{flat_map};
ghost use Rattle.log_text.specs.ShowTexts.{field, writer_text, program_line, words_line, limits_line, counts_text};
ghost use Rattle.log_text.specs.ShowTexts.{thread_line, entry_line, input_line, last_line, last_lines};

use dep_log::{Entry, ThreadLog};
use light_base::{Memory, Tag, put_decimal};
use machine::Limits;
use std::alloc::Global;
use transcript::put_end;

// Appends a name and its number.
fn put_field(text: &mut Vec<u8>, name: &[u8], n: u64) -> Result<(), Memory>
    ensures { OnOk result (text.new.items ≡ text.old.items ++ field name.now n) }
{
    text.extend_from_slice(name)?;
    put_decimal(text, n)
}

// Appends who wrote.
fn put_writer(text: &mut Vec<u8>, tag: Tag) -> Result<(), Memory>
    ensures { OnOk result (text.new.items ≡ text.old.items ++ writer_text tag) }
{
    match tag.writer() {
        None => {
            text.extend_from_slice(b"initial")?;
            Ok(())
        }
        Some(event) => {
            put_decimal(text, u64::from(event.thread))?;
            text.extend_from_slice(b":")?;
            put_decimal(text, u64::from(event.step))
        }
    }
}

/// Appends the line of the program.
pub fn put_program(alloc: Global, text: &mut Vec<u8>, digest: &[u8]) -> Result<(), Memory>
    ensures { OnOk result (text.new.items ≡ text.old.items ++ program_line digest.now) }
{
    text.extend_from_slice(b"program ")?;
    let digits = hex::encode(alloc, digest)?;
    text.extend_from_slice(digits.as_bytes())?;
    text.push(b'\n')?;
    Ok(())
}

/// Appends how many words there are.
pub fn put_words(text: &mut Vec<u8>, count: usize) -> Result<(), Memory>
    ensures { OnOk result (text.new.items ≡ text.old.items ++ words_line count) }
{
    put_field(text, b"words ", count as u64)?;
    text.push(b'\n')?;
    Ok(())
}

/// Appends the limits.
pub fn put_limits(text: &mut Vec<u8>, limits: &Limits) -> Result<(), Memory>
    ensures { OnOk result (text.new.items ≡ text.old.items ++ limits_line limits.now) }
{
    put_field(text, b"limits ", u64::from(limits.steps()))?;
    put_field(text, b" ", u64::from(limits.instr()))?;
    put_field(text, b" ", u64::from(limits.entries()))?;
    text.push(b'\n')?;
    Ok(())
}

// Appends what a thread counts.
fn put_counts(text: &mut Vec<u8>, thread: &ThreadLog) -> Result<(), Memory>
    ensures { OnOk result (text.new.items ≡ text.old.items ++ counts_text thread.now) }
{
    put_field(text, b" steps ", u64::from(thread.steps()))?;
    put_field(text, b" instr ", u64::from(thread.instr()))?;
    put_field(text, b" entries ", thread.entries().len() as u64)?;
    put_field(text, b" inputs ", thread.taken().len() as u64)
}

/// Appends how a thread ended, and what it counts.
pub fn put_thread(text: &mut Vec<u8>, number: usize, thread: &ThreadLog) -> Result<(), Memory>
    ensures { OnOk result (text.new.items ≡ text.old.items ++ thread_line number thread.now) }
{
    put_field(text, b"thread ", number as u64)?;
    text.push(b' ')?;
    put_end(text, thread.end())?;
    put_counts(text, thread)?;
    text.push(b'\n')?;
    Ok(())
}

fn put_entry(text: &mut Vec<u8>, entry: &Entry) -> Result<(), Memory>
    ensures { OnOk result (text.new.items ≡ text.old.items ++ entry_line entry.now) }
{
    put_field(text, b"entry ", u64::from(entry.word))?;
    text.extend_from_slice(b" source ")?;
    put_writer(text, entry.source)?;
    put_field(text, b" first ", u64::from(entry.first))?;
    put_field(text, b" last ", u64::from(entry.last))?;
    text.push(b'\n')?;
    Ok(())
}

/// Appends a line for each entry.
pub fn put_entries(text: &mut Vec<u8>, entries: &[Entry]) -> Result<(), Memory>
    ensures { OnOk result (text.new.items ≡ text.old.items ++ flat_map entry_line entries.now) }
{
    for entry in entries {
        put_entry(text, entry)?;
    }
    Ok(())
}

fn put_input(text: &mut Vec<u8>, value: u32) -> Result<(), Memory>
    ensures { OnOk result (text.new.items ≡ text.old.items ++ input_line value) }
{
    put_field(text, b"in ", u64::from(value))?;
    text.push(b'\n')?;
    Ok(())
}

/// Appends a line for each input number.
pub fn put_inputs(text: &mut Vec<u8>, taken: &[u32]) -> Result<(), Memory>
    ensures { OnOk result (text.new.items ≡ text.old.items ++ flat_map input_line taken.now) }
{
    for value in taken {
        put_input(text, *value)?;
    }
    Ok(())
}

fn put_last(text: &mut Vec<u8>, word: usize, tag: Tag) -> Result<(), Memory>
    ensures { OnOk result (text.new.items ≡ text.old.items ++ last_line word tag) }
{
    if tag.writer().is_none() {
        return Ok(());
    }
    put_field(text, b"word ", word as u64)?;
    text.extend_from_slice(b" last ")?;
    put_writer(text, tag)?;
    text.push(b'\n')?;
    Ok(())
}

/// Appends a line for each word that was written.
pub fn put_last_tags(text: &mut Vec<u8>, last_tags: &[Tag]) -> Result<(), Memory>
    ensures { OnOk result (text.new.items ≡ text.old.items ++ last_lines 0 last_tags.now) }
{
    for (word, tag) in last_tags.iter().enumerate() {
        put_last(text, word, *tag)?;
    }
    Ok(())
}
