//! Logs of runs: which write each read of each thread saw, how each thread ended, and who wrote each word last.
#![tactic(auto)]

mod buckets;
mod dep_log;
mod entries;
mod run_log;
mod thread_log;

pub use crate::dep_log::DepLog;
pub use entries::entries_of;
pub use replay_model::Entry;
pub use run_log::RunLog;
pub use thread_log::ThreadLog;
