// What is to be ordered.
use crate::chains::Chains;
use crate::rows::Rows;
use crate::writers::Writers;

/// Chains of nodes, the nodes that have to come before each node and stand in other chains, and who writes and reads.
#[derive(Drop)]
pub struct Shape {
    pub chains: Chains,
    pub before: Rows<u32>,
    pub writers: Writers,
}
