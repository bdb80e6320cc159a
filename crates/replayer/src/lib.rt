//! Replays of a program by a log: the threads take turns on one memory in the order of the log's events, and of their
//! writes only those are made that the log names.
#![tactic(auto)]

mod difference;
mod kept_steps;
mod laws;
mod notes;
mod order;
mod replay;
mod seat;
mod words;

pub use difference::{Difference, Kept};
pub use kept_steps::KeptSteps;
pub use laws::replay_law;
pub use notes::Written;
pub use order::{replay_noting, replay_order};
pub use replay::{Replay, Replayed, Turned, opening_kept, opening_seats};
pub use seat::run_to;
pub use words::ReplayWords;
