// Edges that were added, listed by the nodes that they lead to.
use std::alloc::{AllocError, Global};

// No further edge.
const NONE: usize = usize::MAX;

/// An edge, and the place of the one added before it that leads to the same node.
#[derive(Clone, Copy)]
pub struct Link {
    pub from: u32,
    to: u32,
    before: usize,
}

#[derive(Drop)]
pub struct Links {
    links: Vec<Link>,
    latest: Vec<usize>,
    kept: usize,
}

impl Links {
    /// No edges between nodes below this number.
    pub fn new(alloc: Global, nodes: usize) -> Result<Links, AllocError> {
        Ok(Links {
            links: Vec::new(alloc),
            latest: vec![in alloc; NONE; nodes]?,
            kept: 0,
        })
    }

    /// How many edges there are.
    pub fn len(&self) -> usize {
        self.links.len()
    }

    /// Adds an edge.
    pub fn add(&mut self, from: u32, to: u32) -> Result<(), AllocError> {
        if let Some(latest) = self.latest.get_mut(to as usize) {
            let place = self.links.len();
            self.links.push(Link {
                from,
                to,
                before: *latest,
            })?;
            *latest = place;
        }
        Ok(())
    }

    /// The latest edge to a node.
    pub fn latest(&self, to: u32) -> Option<Link> {
        let place = self.latest.get(to as usize)?;
        self.links.get(*place).copied()
    }

    /// The edge to the same node that was added before this one.
    pub fn before(&self, link: &Link) -> Option<Link> {
        self.links.get(link.before).copied()
    }

    /// The edges so far stay.
    pub fn keep(&mut self) {
        self.kept = self.links.len();
    }

    /// Takes back the edges that were added since `keep`.
    pub fn restore(&mut self) {
        while self.links.len() > self.kept {
            if let Some(link) = self.links.pop() {
                if let Some(latest) = self.latest.get_mut(link.to as usize) {
                    *latest = link.before;
                }
            }
        }
    }
}
