// How far each thread has to go.
ghost use Rattle.std.specs.Prelude.{◌≡◌, ◌<◌, ◌≤◌, ◌↔◌, IsTrue, IfOk, Some, length};
ghost use Rattle.replay_model.specs.Steps.{Event};
ghost use Rattle.replay_model.specs.Logs.{thread_of};
ghost use Rattle.cut_laws.specs.Cuts.{IsCut};
ghost use Rattle.cut_laws.specs.Searches.{raised};
ghost use Rattle.stopper.specs.Nexts.{HasNext, IsFirstBegun};

use dep_log::RunLog;
use light_base::{Memory, Tag};
use std::alloc::Global;

// Whether the next entry of a thread has begun.
fn has_next(log: &RunLog, numbers: &[u32], nexts: &[u32], thread: usize) -> bool
    requires thread { thread < length log.now.threads }
    requires numbers { length numbers.now ≡ length log.now.threads }
    requires nexts { length nexts.now ≡ length log.now.threads }
    ensures { IsTrue result ↔ HasNext log.now numbers.now nexts.now thread }
{
    let entries = log.threads()[thread].entries();
    let next = nexts[thread] as usize;
    next < entries.len() && entries[next].first <= numbers[thread]
}

// The first thread whose next entry has begun.
fn first_begun(log: &RunLog, numbers: &[u32], nexts: &[u32]) -> Option<usize>
    requires numbers { length numbers.now ≡ length log.now.threads }
    requires nexts { length nexts.now ≡ length log.now.threads }
    ensures { IsFirstBegun log.now numbers.now nexts.now result }
{
    for thread in 0..log.threads().len() {
        if has_next(log, numbers, nexts, thread) {
            return Some(thread);
        }
    }
    None
}

// Lets the thread of a source go as far as this.
fn raise(numbers: &mut Vec<u32>, source: Tag)
    requires { (event : Event) → source ≡ Some event → event.thread < length numbers.old.items }
    ensures { numbers.new.items ≡ raised numbers.old.items source }
{
    if let Some(event) = source.writer() {
        let thread = usize::from(event.thread);
        numbers[thread] = numbers[thread].max(event.step);
    }
}

/// How far each thread has to go so that one of them takes a step: the number of its last step, for each thread. These are the
/// least numbers with which the thread goes as far as the step, and each read sees a write that was made.
///
/// The step is one that the log has, or 0, which is before the first one. Each entry is looked at once, as far as its thread
/// goes. The one error is want of memory.
pub fn cut_of(alloc: Global, log: &RunLog, thread: u8, step: u32) -> Result<Vec<u32>, Memory>
    requires thread { thread < length log.now.threads }
    requires step { step ≤ (thread_of log.now thread).steps }
    ensures { IfOk result (λ cut. IsCut log.now thread step cut.items) }
{
    let count = log.threads().len();
    let mut numbers = Vec::new(alloc);
    numbers.resize(count, 0)?;
    let mut nexts = Vec::new(alloc);
    nexts.resize(count, 0)?;
    numbers[usize::from(thread)] = step;
    while let Some(next) = first_begun(log, &numbers, &nexts) {
        let entry = log.threads()[next].entries()[nexts[next] as usize];
        raise(&mut numbers, entry.source);
        nexts[next] += 1;
    }
    Ok(numbers)
}
