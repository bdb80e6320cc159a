// The text of verdicts.
ghost use Rattle.std.specs.Prelude.{◌≡◌, ◌++◌, IfOk, OnOk};
ghost use Rattle.batch.specs.Texts.{digest_text, verdict_text, verdict_line, verdict_lines};

use crate::verdict::Verdict;
use light_base::{Memory, put_decimal};
use std::alloc::Global;

// Appends that the runs are the same, with the digest of their transcript.
fn put_same(alloc: Global, text: &mut Vec<u8>, digest: &[u8; 32]) -> Result<(), Memory>
    ensures { OnOk result (text.new.items ≡ text.old.items ++ digest_text digest.now) }
{
    text.extend_from_slice(b"same ")?;
    let digits = hex::encode(alloc, digest)?;
    text.extend_from_slice(digits.as_bytes())?;
    Ok(())
}

// Appends what is told of a verdict.
fn put_verdict(alloc: Global, text: &mut Vec<u8>, verdict: &Verdict) -> Result<(), Memory>
    ensures { OnOk result (text.new.items ≡ text.old.items ++ verdict_text verdict.now) }
{
    match verdict {
        Verdict::ImageRefused => text.extend_from_slice(b"image refused")?,
        Verdict::LogRefused => text.extend_from_slice(b"log refused")?,
        Verdict::WrongProgram => text.extend_from_slice(b"wrong program")?,
        Verdict::Spent => text.extend_from_slice(b"budget spent")?,
        Verdict::NoSchedule => text.extend_from_slice(b"no schedule")?,
        Verdict::Differs => text.extend_from_slice(b"differs")?,
        Verdict::Same(digest) => put_same(alloc, text, digest)?,
    }
    Ok(())
}

// Appends the line of the job with this number.
fn put_line(alloc: Global, text: &mut Vec<u8>, job: u64, verdict: &Verdict) -> Result<(), Memory>
    ensures { OnOk result (text.new.items ≡ text.old.items ++ verdict_line job verdict.now) }
{
    put_decimal(text, job)?;
    text.push(b' ')?;
    put_verdict(alloc, text, verdict)?;
    text.push(b'\n')?;
    Ok(())
}

/// A line for each verdict, with the number of its job, from 1.
pub fn verdicts_text(alloc: Global, verdicts: &[Verdict]) -> Result<Vec<u8>, Memory>
    ensures { IfOk result (λ text. text.items ≡ verdict_lines 1 verdicts.now) }
{
    let mut text = Vec::new(alloc);
    for (place, verdict) in verdicts.iter().enumerate() {
        put_line(alloc, &mut text, place as u64 + 1, verdict)?;
    }
    Ok(text)
}
