//! Which two writes to a word a log alone leaves in either order, and what follows for those that it does not.
#![tactic(auto)]

mod base;
mod bounds;
mod count;
pub mod laws;
mod list;
mod next;
mod open;
mod pair;
mod shut;
mod table;
mod tally;
mod text;

pub use open::{Open, open_pairs};
pub use pair::Pair;
pub use text::races_text;
