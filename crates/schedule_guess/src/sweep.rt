// The nodes in an order in which each comes after those that edges lead from it to.
use crate::shape::Shape;
use std::alloc::{AllocError, Global};

#[derive(Drop)]
pub struct Sweep {
    // How many edges lead from each node to nodes that are not done.
    left: Vec<u32>,
    // Nodes from which no such edge leads any more.
    ready: Vec<u32>,
}

impl Sweep {
    /// Before any node is done.
    pub fn new(alloc: Global, shape: &Shape) -> Result<Sweep, AllocError> {
        let nodes = shape.chains.nodes();
        let mut sweep = Sweep {
            left: vec![in alloc; 0; nodes as usize]?,
            ready: Vec::with_capacity(alloc, nodes as usize)?,
        };
        for node in 0..nodes {
            sweep.count(shape, node);
        }
        for node in 0..nodes {
            if sweep.left.get(node as usize) == Some(&0) {
                sweep.ready.push(node)?;
            }
        }
        Ok(sweep)
    }

    // Counts the edges to a node.
    fn count(&mut self, shape: &Shape, node: u32) {
        if let Some(before) = shape.chains.before(node) {
            self.add(before);
        }
        for before in shape.before.row(node) {
            self.add(*before);
        }
    }

    fn add(&mut self, from: u32) {
        if let Some(left) = self.left.get_mut(from as usize) {
            *left = left.wrapping_add(1);
        }
    }

    /// The node at a place of the order; None where that is not known yet.
    pub fn at(&self, place: u32) -> Option<u32> {
        self.ready.get(place as usize).copied()
    }

    /// A node is done.
    pub fn done(&mut self, shape: &Shape, node: u32) -> Result<(), AllocError> {
        if let Some(before) = shape.chains.before(node) {
            self.take(before)?;
        }
        for before in shape.before.row(node) {
            self.take(*before)?;
        }
        Ok(())
    }

    // One edge less from a node.
    fn take(&mut self, from: u32) -> Result<(), AllocError> {
        if let Some(left) = self.left.get_mut(from as usize) {
            *left = left.wrapping_sub(1);
            if *left == 0 {
                self.ready.push(from)?;
            }
        }
        Ok(())
    }
}
