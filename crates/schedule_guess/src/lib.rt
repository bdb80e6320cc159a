//! Guesses an order of nodes in chains in which edges rise and of two writers of a word one is read for the last time before
//! the other writes.
//!
//! A guess is a guess: nothing is promised of the order that comes, nor that one comes where there is one. What is proved is
//! that the search for it ends and is safe. `order_judge` judges what comes; where nothing does, an exact search decides.
//!
//! How it goes: the clock of a node tells, for each chain, the least node of it that the node leads to. Where a writer of a
//! word leads to a last read of another writer, each of its own last reads stands before that other one: such edges are added,
//! and clocks lowered, until nothing more follows. Then nodes are placed from the front of the chains. Where each node that
//! may come next writes a word that others still wait to write, the first one is tried whose turn closes no cycle.
#![tactic(auto)]

mod chains;
mod clocks;
mod guesses;
mod links;
mod opening;
mod plan;
mod queue;
mod reach;
mod rows;
mod shape;
mod stop;
mod sweep;
mod writers;

pub use guesses::guess;
