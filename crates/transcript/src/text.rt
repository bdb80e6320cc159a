// The transcript of reports and last values.
ghost use Rattle.std.specs.Prelude.{◌≡◌, ◌++◌, IfOk, OnOk, OnErr};
ghost use Rattle.std.specs.List.{flat_map};
ghost use Rattle.transcript.specs.Transcripts.{BeginsWith, thread_line, out_line, thread_lines, transcript};

use crate::lines::{put_outputs, put_thread, put_words};
use light_base::Memory;
use machine::RunReport;
use std::alloc::Global;

// Appends a thread's line and its output.
fn put_report(text: &mut Vec<u8>, thread: usize, report: &RunReport) -> Result<(), Memory>
    ensures ok { OnOk result (text.new.items ≡ text.old.items ++ (thread_line thread report.now ++ flat_map out_line report.now.output)) }
    ensures err { OnErr result (BeginsWith text.new.items text.old.items) }
{
    put_thread(text, thread, report)?;
    put_outputs(text, report.output())
}

// Appends what all threads report.
fn put_reports(text: &mut Vec<u8>, reports: &[RunReport]) -> Result<(), Memory>
    ensures ok { OnOk result (text.new.items ≡ text.old.items ++ thread_lines 0 reports.now) }
    ensures err { OnErr result (BeginsWith text.new.items text.old.items) }
{
    for (thread, report) in reports.iter().enumerate() {
        put_report(text, thread, report)?;
    }
    Ok(())
}

/// The transcript: each thread with its output, and each word whose last value isn't 0.
#[tactic(auto, unfolding(crate::specs::Transcripts::transcript))]
pub fn text_of(alloc: Global, reports: &[RunReport], last_values: &[u32]) -> Result<Vec<u8>, Memory>
    ensures { IfOk result (λ text. text.items ≡ transcript reports.now last_values.now) }
{
    let mut text = Vec::new(alloc);
    put_reports(&mut text, reports)?;
    put_words(&mut text, last_values)?;
    Ok(text)
}
