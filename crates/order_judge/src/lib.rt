//! Judges an order of nodes: whether it holds each node once, edges between nodes rise in it, and of two writers of a word
//! one is read for the last time before the other writes. What a word keeps from one writer, from the write to the last read,
//! is a live range; the judge sorts them and goes through them once.
#![tactic(auto)]

mod judging;
mod live_ranges;
mod passes;
mod places;
mod rising;
mod sorted;

pub use judging::{Read, respects};
pub use live_ranges::{LiveRange, first_overlap};
pub use places::{Placing, places_of};
