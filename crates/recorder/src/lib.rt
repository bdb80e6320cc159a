//! Recording: a program is run, and what its threads read, how they ended and what they left is kept.
//!
//! `record` runs the program's threads on real ones, which share its words; `record_turns` plays them on one thread by a
//! given order of turns. Both give the log, the reports and the last values of one whole history.
#![tactic(auto)]

mod entries;
mod groups;
mod hand_words;
mod recorded;
mod runner;
mod thread_logs;
mod thread_runs;
mod threads;
mod turns;
mod workers;

pub use groups::{BrokenGroup, run_group};
pub use recorded::Recorded;
pub use running_thread::{Gate, OpenGate};
pub use thread_runs::{Broken, Finished, run_thread};
pub use threads::{record, record_workers};
pub use turns::record_turns;
