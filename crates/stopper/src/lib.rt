//! A replay that stops at a step: how far each thread has to go for it, and how a thread stands right after it.
#![tactic(auto)]

mod cut;
pub mod laws;
mod play;
mod stop;
mod stray;
mod text;

pub use cut::cut_of;
pub use stop::{Snap, Stopped, stop_at};
pub use stray::Stray;
pub use text::snap_text;
