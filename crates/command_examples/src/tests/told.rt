// How a command ended, as a row tells it: the line of its status without what all lines have, and what else the status holds.
use dep_log::Entry;
use light_base::Tag;
use light_top::{Print, Status, status_text};
use replayer::{Difference, Kept};
use std::alloc::{AllocError, Global};
use std::test::Fail;
use stopper::Stray;

// The line of a status, without `light: ` and the end of the line. Of a command that was done there is none.
fn line_of(alloc: Global, status: &Status) -> Result<String, Fail> {
    let text = String::from_utf8(status_text(alloc, status)?)?;
    let line = text.as_str();
    let line = line.strip_prefix("light: ").unwrap_or(line);
    let line = line.strip_suffix("\n").unwrap_or(line);
    Ok(String::from_str(alloc, line)?)
}

fn source_of(alloc: Global, tag: Tag) -> Result<String, AllocError> {
    match tag.writer() {
        Some(event) => format!(in alloc; "{}:{}", event.thread, event.step),
        None => format!(in alloc; "initial"),
    }
}

// An entry as its word, its source, its first and its last step.
fn entry_of(alloc: Global, entry: &Entry) -> Result<String, AllocError> {
    let source = source_of(alloc, entry.source)?;
    format!(in alloc; "{} {source} {} {}", entry.word, entry.first, entry.last)
}

// An entry, a tail as its steps, its instructions, its end and how many numbers were taken, or a last tag.
fn kept_of(alloc: Global, kept: &Kept) -> Result<String, AllocError> {
    match kept {
        Kept::Entry(entry) => {
            let text = entry_of(alloc, entry)?;
            format!(in alloc; "entry {text}")
        }
        Kept::Tail {
            steps,
            instr,
            end,
            taken,
        } => format!(in alloc; "tail {steps} {instr} {end:?} {taken}"),
        Kept::LastTag(tag) => {
            let source = source_of(alloc, *tag)?;
            format!(in alloc; "last {source}")
        }
    }
}

fn difference_of(alloc: Global, difference: &Difference) -> Result<String, AllocError> {
    let logged = kept_of(alloc, &difference.logged)?;
    let found = kept_of(alloc, &difference.found)?;
    format!(in alloc; "{logged}, not {found}")
}

// What stands at a place among the entries of a thread.
fn place_of(alloc: Global, entry: &Option<Entry>) -> Result<String, AllocError> {
    match entry {
        Some(entry) => entry_of(alloc, entry),
        None => format!(in alloc; "none"),
    }
}

// How many steps were taken of how many, or what is logged and what was found.
fn stray_of(alloc: Global, stray: &Stray) -> Result<String, AllocError> {
    match stray {
        Stray::Ended { wanted, taken, .. } => format!(in alloc; "{taken} of {wanted}"),
        Stray::Entry {
            entry,
            logged,
            found,
            ..
        } => {
            let logged = place_of(alloc, logged)?;
            let found = place_of(alloc, found)?;
            format!(in alloc; "entry {entry} {logged}, not {found}")
        }
    }
}

// A digest in hexadecimal digits, a number of words and one of threads.
fn print_of(alloc: Global, print: &Print) -> Result<String, AllocError> {
    let mut text = String::new(alloc);
    for byte in &print.digest {
        text.push_str(format!(in alloc; "{byte:02x}")?.as_str())?;
    }
    text.push_str(format!(in alloc; " {} {}", print.words, print.threads)?.as_str())?;
    Ok(text)
}

// How a command ended: nothing where it was done, `no schedule`, `log refused kind 1 at 89`, `too long: 8388609`,
// `no such step: 2 4`, `strays thread 0: 2 of 3`, `strays thread 0: entry 0 0 0:1 2 3, not 0 0:1 2 2`, `wrong inputs: 1 2`, `wrong program: DIGEST 1 1, not DIGEST 1 1`, or `differs thread 0 entry 1: tail 3 4 Halted 0, not tail 2 4
// Halted 0`.
pub fn told(alloc: Global, status: &Status) -> Result<String, Fail> {
    let line = line_of(alloc, status)?;
    let more = match status {
        Status::TooLong { taken } => format!(in alloc; "{taken}")?,
        Status::WrongInputs { program, inputs } => format!(in alloc; "{program} {inputs}")?,
        Status::NoStep { threads, steps } => format!(in alloc; "{threads} {steps}")?,
        Status::Strays(stray) => stray_of(alloc, stray)?,
        Status::Differs(difference) => difference_of(alloc, difference)?,
        Status::WrongProgram { logged, found } => {
            let logged = print_of(alloc, logged)?;
            let found = print_of(alloc, found)?;
            format!(in alloc; "{logged}, not {found}")?
        }
        _ => return Ok(line),
    };
    Ok(format!(in alloc; "{line}: {more}")?)
}
