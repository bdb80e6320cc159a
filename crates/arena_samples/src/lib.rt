//! Programs to try things on: arenas of any number, and known small examples as text.
#![tactic(auto)]

mod arenas;
mod draws;
mod samples;
mod summaries;

pub use arenas::arena;
pub use samples::{LOST_UPDATE, MESSAGE_PASSING, STORE_BUFFER, TWO_FLAGS};
pub use summaries::summary;
