//! Whether a log is that of a whole history of a program, with each write in its place, also the writes that no read saw.
#![tactic(auto)]

mod counting;
mod edges;
pub mod examples;
mod judging;
pub mod laws;
mod next_places;
mod placed;
mod placing;
mod positions;
mod rows;
mod turns;

pub use judging::{Audit, judge};
pub use next_places::next_set;
pub use placed::{is_impossible, list_placed};
pub use turns::turns_of;
