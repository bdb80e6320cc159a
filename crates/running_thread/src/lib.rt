//! A running thread: its core with its log, on any words.
#![tactic(auto)]

pub mod cells;
mod gate;
mod thread;
mod words;

pub use gate::{Gate, OpenGate};
pub use thread::{Moved, RunningThread, Setting};
pub use words::StepWords;
