// One function for each kind of line. After `Memory` the text has some front of the line more, so it begins with what it was.
ghost use Rattle.std.specs.Prelude.{◌≡◌, ◌++◌, OnOk, OnErr};
ghost use Rattle.std.specs.List.{flat_map};
ghost use Rattle.transcript.specs.Transcripts.{BeginsWith, end_text, thread_line, out_line, word_line, word_lines};

use light_base::{Memory, put_decimal};
use machine::RunReport;
use replay_model::End;

/// Appends how a thread ended.
pub fn put_end(text: &mut Vec<u8>, end: End) -> Result<(), Memory>
    ensures ok { OnOk result (text.new.items ≡ text.old.items ++ end_text end) }
    ensures err { OnErr result (BeginsWith text.new.items text.old.items) }
{
    match end {
        End::Halted => text.extend_from_slice(b"halted")?,
        End::InstrSpent => text.extend_from_slice(b"instr-spent")?,
        End::BadAddress(address) => {
            text.extend_from_slice(b"bad-address ")?;
            put_decimal(text, u64::from(address))?;
        }
        End::StepsSpent => text.extend_from_slice(b"steps-spent")?,
        End::EntriesFull => text.extend_from_slice(b"entries-full")?,
        End::OutputFull => text.extend_from_slice(b"output-full")?,
        End::InputEmpty => text.extend_from_slice(b"input-empty")?,
    }
    Ok(())
}

fn put_output(text: &mut Vec<u8>, value: u32) -> Result<(), Memory>
    ensures ok { OnOk result (text.new.items ≡ text.old.items ++ out_line value) }
    ensures err { OnErr result (BeginsWith text.new.items text.old.items) }
{
    text.extend_from_slice(b"out ")?;
    put_decimal(text, u64::from(value))?;
    text.push(b'\n')?;
    Ok(())
}

/// Appends a line for each value that a thread put out.
pub fn put_outputs(text: &mut Vec<u8>, output: &[u32]) -> Result<(), Memory>
    ensures ok { OnOk result (text.new.items ≡ text.old.items ++ flat_map out_line output.now) }
    ensures err { OnErr result (BeginsWith text.new.items text.old.items) }
{
    for value in output {
        put_output(text, *value)?;
    }
    Ok(())
}

fn put_word(text: &mut Vec<u8>, word: usize, value: u32) -> Result<(), Memory>
    ensures ok { OnOk result (text.new.items ≡ text.old.items ++ word_line word value) }
    ensures err { OnErr result (BeginsWith text.new.items text.old.items) }
{
    text.extend_from_slice(b"word ")?;
    put_decimal(text, word as u64)?;
    text.push(b' ')?;
    put_decimal(text, u64::from(value))?;
    text.push(b'\n')?;
    Ok(())
}

/// Appends a line for each word whose last value isn't 0.
pub fn put_words(text: &mut Vec<u8>, last_values: &[u32]) -> Result<(), Memory>
    ensures ok { OnOk result (text.new.items ≡ text.old.items ++ word_lines 0 last_values.now) }
    ensures err { OnErr result (BeginsWith text.new.items text.old.items) }
{
    for (word, value) in last_values.iter().enumerate() {
        if *value != 0 {
            put_word(text, word, *value)?;
        }
    }
    Ok(())
}

/// Appends the line of a thread.
pub fn put_thread(text: &mut Vec<u8>, thread: usize, report: &RunReport) -> Result<(), Memory>
    ensures ok { OnOk result (text.new.items ≡ text.old.items ++ thread_line thread report.now) }
    ensures err { OnErr result (BeginsWith text.new.items text.old.items) }
{
    text.extend_from_slice(b"thread ")?;
    put_decimal(text, thread as u64)?;
    text.push(b' ')?;
    put_end(text, report.end())?;
    text.extend_from_slice(b" steps ")?;
    put_decimal(text, u64::from(report.steps()))?;
    text.extend_from_slice(b" instr ")?;
    put_decimal(text, u64::from(report.instr()))?;
    text.push(b'\n')?;
    Ok(())
}
