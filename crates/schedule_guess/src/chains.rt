// Nodes in chains: they are numbered from 0, chain after chain.
ghost use Rattle.std.specs.Prelude.{◌<◌};

use crate::clocks::{CHAINS, Clock, NEVER};
use std::alloc::{AllocError, Global};

/// The most nodes there may be.
const NODES: u32 = 1 << 24;

#[derive(Drop)]
pub struct Chains {
    nodes: u32,
    chain_of: Vec<u8>,
    starts: Clock,
    ends: Clock,
}

impl Chains {
    /// Chains of these lengths; None where there are more than 16, or more than 2^24 nodes in them.
    pub fn of(alloc: Global, counts: &[u32]) -> Result<Option<Chains>, AllocError> {
        let mut chains = Chains {
            nodes: 0,
            chain_of: Vec::new(alloc),
            starts: [NEVER; CHAINS],
            ends: [NEVER; CHAINS],
        };
        for (chain, count) in counts.iter().enumerate() {
            let end = chains.nodes.saturating_add(*count);
            if chain >= CHAINS || end > NODES {
                return Ok(None);
            }
            chains.starts[chain] = chains.nodes;
            chains.ends[chain] = end;
            chains.nodes = end;
            chains.chain_of.resize(end as usize, chain as u8)?;
        }
        Ok(Some(chains))
    }

    /// How many nodes there are.
    pub fn nodes(&self) -> u32 {
        self.nodes
    }

    /// The chain of a node.
    pub fn chain_of(&self, node: u32) -> usize
        ensures { result < 16 }
    {
        match self.chain_of.get(node as usize) {
            Some(chain) => usize::from(*chain) % CHAINS,
            None => 0,
        }
    }

    /// The node before this one in its chain.
    pub fn before(&self, node: u32) -> Option<u32> {
        let start = self.starts[self.chain_of(node)];
        if start < node { Some(node - 1) } else { None }
    }

    /// The first node of each chain.
    pub fn starts(&self) -> &Clock {
        &self.starts
    }

    /// The number after the last node of each chain.
    pub fn ends(&self) -> &Clock {
        &self.ends
    }
}
