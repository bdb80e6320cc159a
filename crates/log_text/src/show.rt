// The text of a log.
ghost use Rattle.std.specs.Prelude.{◌≡◌, ◌++◌, IfOk, OnOk};
ghost use Rattle.log_text.specs.ShowTexts.{thread_text, threads_text, head_text, show};

use crate::lines::{
    put_entries, put_inputs, put_last_tags, put_limits, put_program, put_thread, put_words,
};
use dep_log::{RunLog, ThreadLog};
use light_base::Memory;
use std::alloc::Global;

// Appends what is logged of a thread.
fn put_log(text: &mut Vec<u8>, number: usize, thread: &ThreadLog) -> Result<(), Memory>
    ensures { OnOk result (text.new.items ≡ text.old.items ++ thread_text number thread.now) }
{
    put_thread(text, number, thread)?;
    put_entries(text, thread.entries())?;
    put_inputs(text, thread.taken())
}

// Appends what is logged of all threads.
fn put_logs(text: &mut Vec<u8>, threads: &[ThreadLog]) -> Result<(), Memory>
    ensures { OnOk result (text.new.items ≡ text.old.items ++ threads_text 0 threads.now) }
{
    for (number, thread) in threads.iter().enumerate() {
        put_log(text, number, thread)?;
    }
    Ok(())
}

// Appends what stands before the threads.
#[tactic(auto, unfolding(crate::specs::ShowTexts::head_text))]
fn put_head(alloc: Global, text: &mut Vec<u8>, log: &RunLog) -> Result<(), Memory>
    ensures { OnOk result (text.new.items ≡ text.old.items ++ head_text log.now) }
{
    put_program(alloc, text, log.digest())?;
    put_words(text, log.finals().len())?;
    put_limits(text, log.limits())
}

/// A log as text: its program's digest, its sizes and limits, each thread with its entries and input numbers, and who wrote
/// each word last.
#[tactic(auto, unfolding(crate::specs::ShowTexts::show))]
pub fn show_text(alloc: Global, log: &RunLog) -> Result<Vec<u8>, Memory>
    ensures { IfOk result (λ text. text.items ≡ show log.now) }
{
    let mut text = Vec::new(alloc);
    put_head(alloc, &mut text, log)?;
    put_logs(&mut text, log.threads())?;
    put_last_tags(&mut text, log.finals())?;
    Ok(text)
}
