//! A search for an order of nodes in which of each two rival sources of a word one comes first with all its last reads, and the
//! solver of a log that stands on it.
#![tactic(auto)]

mod begin;
mod cursor;
mod finding;
mod forcing;
mod guessing;
pub mod laws;
mod pairs;
mod problems;
mod rivals;
mod rows;
mod search;
mod sides;
mod solving;
mod taking;

pub use finding::{Finding, Prepared, prepare, search_line};
pub use guessing::guess_line;
pub use rivals::Rivals;
pub use solving::{Answer, Search, solve};
