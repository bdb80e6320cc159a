// The steps of a thread whose writes are made.
ghost use Rattle.std.specs.Prelude.{◌≡◌, Some, IfOk, OnOk};
ghost use Rattle.replay_model.specs.Steps.{same_tag};
ghost use Rattle.replayer.specs.KeptSteps.{event_at, is_source, is_tagged, begins_with, past, AreAdded, AreNamed, AreLeft};

use dep_log::{Entry, RunLog};
use light_base::{Memory, Tag};
use std::alloc::Global;
use std::marker::Model;

/// The steps of one thread whose writes the log names, by rising number, from some step on.
///
/// It is seen as the steps that are left.
#[derive(Drop)]
pub struct KeptSteps {
    steps: Vec<u32>,
    next: usize,
}

impl Model for KeptSteps {
    ghost use Rattle.std.specs.Prelude.{List, ℕ, ◌≤◌, length, drop};

    ghost Value = { List ℕ };

    ghost view = { λ k. drop k.next k.steps.items };

    ghost invariant = { λ k. k.next ≤ length k.steps.items };
}

// Adds the step of a tag, where it is one of this thread.
fn add(steps: &mut Vec<u32>, thread: u8, tag: Tag) -> Result<(), Memory>
    ensures { OnOk result (AreAdded (λ m. same_tag tag (Some (event_at thread m))) steps.old.items steps.new.items) }
{
    if let Some(event) = tag.writer() {
        if event.thread == thread {
            steps.push(event.step)?;
        }
    }
    Ok(())
}

// Adds the steps of this thread that are sources of entries.
fn add_sources(steps: &mut Vec<u32>, thread: u8, entries: &[Entry]) -> Result<(), Memory>
    ensures { OnOk result (AreAdded (is_source thread entries.now) steps.old.items steps.new.items) }
{
    for entry in entries {
        add(steps, thread, entry.source)?;
    }
    Ok(())
}

// Adds the steps of this thread that are among the tags.
fn add_tags(steps: &mut Vec<u32>, thread: u8, tags: &[Tag]) -> Result<(), Memory>
    ensures { OnOk result (AreAdded (is_tagged thread tags.now) steps.old.items steps.new.items) }
{
    for tag in tags {
        add(steps, thread, *tag)?;
    }
    Ok(())
}

// The steps of this thread that are sources or last tags, in any order, and each as often as it is named.
fn named_steps(alloc: Global, log: &RunLog, thread: u8) -> Result<Vec<u32>, Memory>
    ensures { IfOk result (λ steps. AreNamed log.now thread steps.items) }
{
    let mut steps = Vec::new(alloc);
    for logged in log.threads() {
        add_sources(&mut steps, thread, logged.entries())?;
    }
    add_tags(&mut steps, thread, log.finals())?;
    Ok(steps)
}

impl KeptSteps {
    /// The steps of a thread that the log names as sources or last tags.
    pub(crate) fn of(alloc: Global, log: &RunLog, thread: u8) -> Result<KeptSteps, Memory>
        ensures { IfOk result (AreLeft log.now thread 0) }
    {
        let mut steps = named_steps(alloc, log, thread)?;
        steps.sort()?;
        steps.dedup();
        Ok(KeptSteps { steps, next: 0 })
    }

    /// Whether the write of a step is made, where all earlier steps were asked of before.
    pub(crate) fn takes(&mut self, step: u32) -> bool
        ensures value { result ≡ begins_with step self.old }
        ensures rest { self.new ≡ past step self.old }
    {
        let is_next = self.steps.get(self.next) == Some(&step);
        if is_next {
            self.next += 1;
        }
        is_next
    }
}
