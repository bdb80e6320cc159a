//! What recording and replaying are about: memory steps, threads as functions of their steps, histories and logs.
//! The definitions stand in `specs/`; here are the few types of them that programs handle.
#![tactic(auto)]

use light_base::{Cell, Tag};

/// How a thread ended. Before each instruction the causes are looked at in this order, and the first one holds.
#[derive(Clone, Copy, Debug, PartialEq, Eq)]
pub enum End {
    /// The thread came to a `halt`, or to the end of its code.
    Halted,
    /// It has run as many instructions as the limit says.
    InstrSpent,
    /// A memory instruction has this address, which no word has.
    BadAddress(u32),
    /// A memory instruction stands there, and the thread has taken as many memory steps as the limit says.
    StepsSpent,
    /// A reading instruction stands there, and the thread's log has as many entries as the limit says.
    EntriesFull,
    /// An output instruction stands there, and the thread has put out as many values as there may be.
    OutputFull,
    /// An input instruction stands there, and the thread has taken all numbers of its input list.
    InputEmpty,
}

/// What a thread wants of the shared memory next.
#[derive(Clone, Copy, Debug, PartialEq, Eq)]
pub enum Want {
    /// To read this word.
    Load(u16),
    /// To write this value to this word.
    Store(u16, u32),
    /// To read this word and to write this value to it.
    Swap(u16, u32),
    /// To read this word, and to write this value to it where it has this tag.
    Cond(u16, Tag, u32),
    /// Nothing, since it has ended.
    Ended(End),
}

/// One memory step of a thread.
#[derive(Clone, Copy, Debug, PartialEq, Eq)]
pub struct Access {
    /// The step's number in its thread, from 1.
    pub step: u32,
    pub word: u16,
    /// What a reading step found.
    pub saw: Option<Cell>,
    /// What the step wrote, where it wrote.
    pub wrote: Option<u32>,
}

/// One entry of a thread's log: the thread read this word, as `source` had written it, first at step `first` and
/// last at step `last`.
#[derive(Clone, Copy, Debug, PartialEq, Eq)]
pub struct Entry {
    pub word: u16,
    pub source: Tag,
    pub first: u32,
    pub last: u32,
}
