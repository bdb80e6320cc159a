//! A directed graph over nodes that stand in chains, one chain a thread, kept by clocks: for each node and thread the least
//! node of that thread that it leads to. So whether a walk leads from one node to another is one comparison.
#![tactic(auto)]

mod carry;
mod clocks;
mod fronts;
mod links;
mod thread_graph;

pub use thread_graph::{Added, Graph, Mark};
