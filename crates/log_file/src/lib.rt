//! Logs and schedules as bytes, and digests of images.
#![tactic(auto)]

mod digest;
mod heads;
mod log_fault;
mod log_reading;
mod number_set;
mod numbers;
mod places;
mod sched_fault;
mod schedule;
mod schedule_writing;
mod seen;
mod version;
mod write;

pub use digest::digest_of;
pub use log_fault::{LogFault, LogKind};
pub use log_reading::{log_text_law, read_log, read_old};
pub use sched_fault::{SchedFault, SchedKind};
pub use schedule::{read_schedule, schedule_law};
pub use schedule_writing::write_schedule;
pub use write::write_log;
