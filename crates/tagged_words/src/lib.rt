//! Words that threads share, each of which carries the tag of the memory step that wrote it.
//!
//! `Words::open` gives a hand to each thread. With it the thread loads, stores, swaps and writes on a condition, each of
//! which is one atomic step of the words. Contracts see a hand as the list of its steps; nothing of that list exists when
//! the program runs. `Words::close` gives the last cells: one list of steps leads from the initial cells to them, and each
//! hand's list is its part of it.
#![tactic(auto)]

mod ends;
mod laws;
mod rule;
mod words;
mod writes;

pub use laws::source_law;
pub use words::{Cond, Hand, Seen, Words};
