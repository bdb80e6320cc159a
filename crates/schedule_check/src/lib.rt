//! Checks an order of a log's events: whether it respects the log, and else its first fault.
#![tactic(auto)]

mod checking;
mod events;
pub mod examples;
mod faults;
mod last_tags;
mod ranks;
mod turns;

pub use checking::check;
pub use faults::{OrderFault, OrderKind, Verdict};
