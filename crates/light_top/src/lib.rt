//! The commands, over any store and any sink.
#![tactic(auto)]

mod arenas;
mod auditing;
mod bytes;
mod crew;
mod delivery;
mod image;
mod jobs;
mod list;
mod loading;
mod order;
mod output;
mod solving;
mod status;
mod stopping;
mod taking;
mod task;
mod top;
mod words;

pub use batch::Print;
pub use recorder::{Gate, OpenGate};
pub use status::{Status, status_text};
pub use top::light;
