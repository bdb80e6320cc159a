//! Histories of a program: the plain machine, which plays all threads on one.
#![tactic(auto)]

mod laws;
mod plain;
mod seat;
mod words;

pub use laws::{history_law, history_log_law};
pub use plain::{Plain, Stepped};
