// Nodes that wait for a visit, each at most once, first come first served.
use std::alloc::{AllocError, Global};
use std::collections::VecDeque;

#[derive(Clone, Copy, PartialEq, Eq)]
enum Mark {
    Closed,
    Open,
    Waiting,
}

#[derive(Drop)]
pub struct Queue {
    marks: Vec<Mark>,
    waiting: VecDeque<u32>,
}

impl Queue {
    /// An empty queue for nodes below this number. All are closed: none may wait.
    pub fn new(alloc: Global, nodes: usize) -> Result<Queue, AllocError> {
        Ok(Queue {
            marks: vec![in alloc; Mark::Closed; nodes]?,
            waiting: VecDeque::with_capacity(alloc, nodes)?,
        })
    }

    fn set(&mut self, node: u32, to: Mark) {
        if let Some(mark) = self.marks.get_mut(node as usize) {
            *mark = to;
        }
    }

    /// From now on the node may wait.
    pub fn open(&mut self, node: u32) {
        self.set(node, Mark::Open);
    }

    /// Lets an open node wait.
    pub fn push(&mut self, node: u32) -> Result<(), AllocError> {
        if self.marks.get(node as usize) == Some(&Mark::Open) {
            self.set(node, Mark::Waiting);
            self.waiting.push_back(node)?;
        }
        Ok(())
    }

    /// Takes the node that has waited longest.
    pub fn pop(&mut self) -> Option<u32> {
        let node = self.waiting.pop_front()?;
        self.set(node, Mark::Open);
        Some(node)
    }

    /// Lets no node wait any more.
    pub fn clear(&mut self) {
        while let Some(node) = self.waiting.pop_front() {
            if let Some(mark) = self.marks.get_mut(node as usize) {
                *mark = Mark::Open;
            }
        }
    }
}
