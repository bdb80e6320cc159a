//! The text that tells of a run: what each thread reports, and the last values of the words.
#![tactic(auto)]

mod lines;
mod text;

pub use lines::put_end;
pub use text::text_of;
