//! The commands on small programs, texts and bytes, over a store and a sink in memory.
#![tactic(auto)]

#[cfg(test)]
mod tests;
