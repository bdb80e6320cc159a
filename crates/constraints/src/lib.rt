//! What a log asks of an order of its events.
#![tactic(auto)]

mod edges;
mod events;
pub mod examples;
pub mod laws;
mod placed;
mod problem;
mod reads;
mod rows;
mod side_edges;

pub use events::list_events;
pub use placed::{Placed, place_entries, place_last_tags};
pub use problem::Problem;
