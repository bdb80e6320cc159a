// What is logged of one thread.
ghost use Rattle.std.specs.Prelude.{◌≡◌};

use replay_model::{End, Entry};
use std::marker::Model;

/// What is logged of one thread: its entries, how many memory steps it took, how many instructions it finished, how it
/// ended, and the input numbers that it took.
#[derive(Debug, Drop)]
pub struct ThreadLog {
    entries: Vec<Entry>,
    steps: u32,
    instr: u32,
    end: End,
    taken: Vec<u32>,
}

impl Model for ThreadLog {
    ghost use Rattle.replay_model.specs.Logs as logs;

    ghost Value = { logs.ThreadLog };

    ghost view = { λ t. record { entries = t.entries.items; steps = t.steps; instr = t.instr; end = t.end; taken = t.taken.items } };
}

impl ThreadLog {
    /// The log with these parts.
    pub fn new(entries: Vec<Entry>, steps: u32, instr: u32, end: End, taken: Vec<u32>) -> ThreadLog
        ensures { result ≡ record { entries = entries.items; steps = steps; instr = instr; end = end; taken = taken.items } }
    {
        ThreadLog {
            entries,
            steps,
            instr,
            end,
            taken,
        }
    }

    /// One entry for each pair of word and tag that the thread read.
    pub fn entries(&self) -> &[Entry]
        ensures { result.now ≡ self.now.entries }
    {
        &self.entries
    }

    /// How many memory steps the thread took.
    pub fn steps(&self) -> u32
        ensures { result ≡ self.now.steps }
    {
        self.steps
    }

    /// How many instructions the thread finished.
    pub fn instr(&self) -> u32
        ensures { result ≡ self.now.instr }
    {
        self.instr
    }

    /// How the thread ended.
    pub fn end(&self) -> End
        ensures { result ≡ self.now.end }
    {
        self.end
    }

    /// The input numbers that the thread took.
    pub fn taken(&self) -> &[u32]
        ensures { result.now ≡ self.now.taken }
    {
        &self.taken
    }

    /// The entries, the numbers of memory steps and of instructions, the end, and the input numbers taken.
    pub fn into_parts(self) -> (Vec<Entry>, u32, u32, End, Vec<u32>)
        ensures entries { result.0.items ≡ self.entries }
        ensures steps { result.1 ≡ self.steps }
        ensures instr { result.2 ≡ self.instr }
        ensures end { result.3 ≡ self.end }
        ensures taken { result.4.items ≡ self.taken }
    {
        (self.entries, self.steps, self.instr, self.end, self.taken)
    }
}

// A log moves from its thread to the one that waits for it.
fn crosses(log: ThreadLog) -> ThreadLog {
    is_moved(log)
}

fn is_moved<T: Send>(value: T) -> T {
    value
}
