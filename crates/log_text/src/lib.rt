//! Logs as text, to be read by people.
#![tactic(auto)]

mod lines;
mod show;

pub use show::show_text;
