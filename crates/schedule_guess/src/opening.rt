// The edges as they are given. Those that others imply are left out, and each node's clock has what they say alone.
use crate::chains::Chains;
use crate::clocks::{CHAINS, Clock, NEVER};
use crate::rows::Rows;
use crate::stop::Stop;
use plain_search::Edge;
use std::alloc::{AllocError, Global};

#[derive(Drop)]
pub struct Opening {
    pub clocks: Vec<Clock>,
    pub before: Rows<u32>,
}

impl Opening {
    /// Of these edges; `Stuck` where one leads back in its chain.
    pub fn of(alloc: Global, chains: &Chains, edges: &[Edge]) -> Result<Opening, Stop> {
        let mut clocks = own_clocks(alloc, chains)?;
        for edge in edges {
            take_edge(chains, &mut clocks, edge)?;
        }
        let before = nodes_before(alloc, chains, &clocks, edges)?;
        Ok(Opening { clocks, before })
    }
}

// Clocks of nodes each of which leads to itself alone.
fn own_clocks(alloc: Global, chains: &Chains) -> Result<Vec<Clock>, AllocError> {
    let mut clocks = Vec::with_capacity(alloc, chains.nodes() as usize)?;
    for node in 0..chains.nodes() {
        let mut clock = [NEVER; CHAINS];
        clock[chains.chain_of(node)] = node;
        clocks.push(clock)?;
    }
    Ok(clocks)
}

// Lowers the clock of the edge's start to its end.
fn take_edge(chains: &Chains, clocks: &mut Vec<Clock>, edge: &Edge) -> Result<(), Stop> {
    let chain = chains.chain_of(edge.to);
    if chain == chains.chain_of(edge.from) && edge.to <= edge.from {
        return Err(Stop::Stuck);
    }
    if let Some(clock) = clocks.get_mut(edge.from as usize) {
        clock[chain] = clock[chain].min(edge.to);
    }
    Ok(())
}

// The nodes with an edge to each node. Of several edges from one node to a chain the first one implies the others, and of
// several to one node from a chain the last one. A chain's own edges are left out.
fn nodes_before(
    alloc: Global,
    chains: &Chains,
    clocks: &[Clock],
    edges: &[Edge],
) -> Result<Rows<u32>, AllocError> {
    let mut firsts = Vec::new(alloc);
    for edge in edges {
        if is_first(chains, clocks, edge) {
            firsts.push((edge.to, edge.from))?;
        }
    }
    let befores = Rows::of(alloc, chains.nodes(), &firsts)?;
    let mut last_reads = Vec::with_capacity(alloc, firsts.len())?;
    for node in 0..chains.nodes() {
        put_last_reads(&mut last_reads, chains, node, befores.row(node))?;
    }
    Rows::of(alloc, chains.nodes(), &last_reads)
}

// Whether the edge leads to another chain, and its start to no earlier node of that one.
fn is_first(chains: &Chains, clocks: &[Clock], edge: &Edge) -> bool {
    let chain = chains.chain_of(edge.to);
    match clocks.get(edge.from as usize) {
        Some(clock) => chain != chains.chain_of(edge.from) && clock[chain] == edge.to,
        None => false,
    }
}

// Appends for each chain the last of these nodes, which come before the node.
fn put_last_reads(
    pairs: &mut Vec<(u32, u32)>,
    chains: &Chains,
    node: u32,
    befores: &[u32],
) -> Result<(), AllocError> {
    if befores.is_empty() {
        return Ok(());
    }
    let mut last_reads: [Option<u32>; CHAINS] = [None; CHAINS];
    for before in befores {
        let chain = chains.chain_of(*before);
        let latest = last_reads[chain];
        if !latest.is_some_and(|last| last > *before) {
            last_reads[chain] = Some(*before);
        }
    }
    for last in &last_reads {
        if let Some(before) = last {
            pairs.push((node, *before))?;
        }
    }
    Ok(())
}
