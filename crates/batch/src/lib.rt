//! Replays of many logs: what becomes of an image, a log and a budget, and many of these at once, over workers.
#![tactic(auto)]

mod batches;
mod job;
pub mod laws;
mod parts;
mod print;
mod reading;
mod replays;
mod text;
mod verdict;

pub use batches::batch;
pub use job::Job;
pub use print::Print;
pub use reading::{program_in, todays_log_in};
pub use replays::{Outcome, find_order, replay};
pub use running_thread::{Gate, OpenGate};
pub use text::verdicts_text;
pub use verdict::{Verdict, judge};
