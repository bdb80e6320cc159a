// What leads where: the clocks of the nodes that are not placed yet, and the edges that were added.
ghost use Rattle.std.specs.Prelude.{◌≤◌, length};

use crate::clocks::{CHAINS, Clock, Clocks, NEVER, is_less};
use crate::links::Links;
use crate::queue::Queue;
use crate::shape::Shape;
use crate::stop::Stop;
use crate::sweep::Sweep;
use crate::writers::{Writer, Writers};
use order_judge::Read;
use std::alloc::{AllocError, Global};

// How many looks at nodes, at what they write and at added edges there are before the guess gives up. Logs of histories ask
// for some ten a node.
const LOOKS: u64 = 100_000;

const LOOKS_A_NODE: u64 = 64;

/// The clock of a node tells for each chain the least node of it that the node leads to.
#[derive(Drop)]
pub struct Reach {
    clocks: Clocks,
    // For each writer and chain, the number after the last read of its word there that it is not known to lead to.
    beyond: Clocks,
    links: Links,
    queue: Queue,
    fronts: Clock,
    // How many looks are left.
    looks: u64,
}

impl Reach {
    /// What follows from the edges and the reads alone; `Stuck` where they have a cycle.
    pub fn of(alloc: Global, shape: &Shape, clocks: Vec<Clock>) -> Result<Reach, Stop> {
        let nodes = shape.chains.nodes();
        let mut reach = Reach {
            clocks: Clocks::of(alloc, clocks)?,
            beyond: Clocks::of(alloc, all_beyond(alloc, &shape.writers)?)?,
            links: Links::new(alloc, nodes as usize)?,
            queue: Queue::new(alloc, nodes as usize)?,
            fronts: *shape.chains.starts(),
            looks: LOOKS + LOOKS_A_NODE * u64::from(nodes),
        };
        reach.settle(Sweep::new(alloc, shape)?, shape)?;
        reach.keep();
        Ok(reach)
    }

    // Visits all nodes, from the last to the first, and carries on what follows.
    fn settle(&mut self, mut sweep: Sweep, shape: &Shape) -> Result<(), Stop> {
        for place in 0..shape.chains.nodes() {
            let node = sweep.at(place).ok_or(Stop::Stuck)?;
            self.queue.open(node);
            self.visit(shape, node)?;
            self.carry(shape)?;
            sweep.done(shape, node)?;
        }
        Ok(())
    }

    /// The front of each chain: nodes below it are placed, and what leads to them is of no use any more.
    pub fn fronts(&self) -> &Clock {
        &self.fronts
    }

    /// A node is placed, the front of this chain.
    pub fn pass(&mut self, chain: usize) {
        if let Some(front) = self.fronts.get_mut(chain) {
            *front = front.saturating_add(1);
        }
    }

    /// What was added so far stays.
    pub fn keep(&mut self) {
        self.clocks.keep();
        self.beyond.keep();
        self.links.keep();
    }

    /// Takes back what was added since `keep`.
    pub fn restore(&mut self) {
        self.clocks.restore();
        self.beyond.restore();
        self.links.restore();
        self.queue.clear();
    }

    /// The clock of a node.
    pub fn clock(&self, node: u32) -> Clock {
        self.clocks.get(node)
    }

    // Whether the one node is known to lead to the other, or is it.
    fn leads(&self, shape: &Shape, from: u32, to: u32) -> bool {
        self.clocks.at(from, shape.chains.chain_of(to)) <= to
    }

    // Lowers the clock of a node. Where it changed, the node waits for a visit.
    fn lower(&mut self, node: u32, by: &Clock) -> Result<(), AllocError> {
        if self.clocks.lower(node, by)? {
            self.queue.push(node)?;
        }
        Ok(())
    }

    // Adds an edge, unless it says nothing new; `Stuck` where it closes a cycle.
    fn link(&mut self, shape: &Shape, from: u32, to: u32) -> Result<(), Stop> {
        if from == to {
            return Ok(());
        }
        if self.leads(shape, to, from) {
            return Err(Stop::Stuck);
        }
        if !self.leads(shape, from, to) {
            self.links.add(from, to)?;
            let clock = self.clocks.get(to);
            self.lower(from, &clock)?;
        }
        Ok(())
    }

    // The last reads of a writer stand before this node, or are it; `Stuck` where that closes a cycle.
    fn end_before(&mut self, shape: &Shape, writer: u32, node: u32) -> Result<(), Stop> {
        for last in shape.writers.last_reads(writer) {
            self.link(shape, *last, node)?;
        }
        Ok(())
    }

    /// The last reads of a writer stand before each of these nodes, or are it; `Stuck` where that closes a cycle.
    pub fn end_before_all(
        &mut self,
        shape: &Shape,
        writer: u32,
        nodes: &Clock,
    ) -> Result<(), Stop> {
        for node in nodes {
            if *node != NEVER {
                self.end_before(shape, writer, *node)?;
            }
        }
        Ok(())
    }

    // Lowers the clock of a node before one with this clock, unless it is placed; `Stuck` where that one leads to it.
    fn pull(&mut self, shape: &Shape, node: u32, clock: &Clock) -> Result<(), Stop> {
        let chain = shape.chains.chain_of(node);
        if node < self.fronts[chain] {
            return Ok(());
        }
        if clock[chain] <= node {
            return Err(Stop::Stuck);
        }
        self.lower(node, clock)?;
        Ok(())
    }

    // Carries the clock of a node on to those before it, and does what it says of the words that the node writes.
    fn visit(&mut self, shape: &Shape, node: u32) -> Result<(), Stop> {
        let clock = self.clocks.get(node);
        let writers = shape.writers.at(node);
        self.looks = self.looks.saturating_sub(1 + writers.len() as u64);
        if let Some(before) = shape.chains.before(node) {
            self.pull(shape, before, &clock)?;
        }
        for before in shape.before.row(node) {
            self.pull(shape, *before, &clock)?;
        }
        let mut link = self.links.latest(node);
        for _ in 0..self.links.len() {
            let Some(edge) = link else { break };
            self.looks = self.looks.saturating_sub(1);
            self.pull(shape, edge.from, &clock)?;
            link = self.links.before(&edge);
        }
        for writer in writers {
            self.force(shape, writer)?;
        }
        Ok(())
    }

    // Where a writer leads to a last read of another writer of its word, its own last reads stand before that one. The first
    // such read in each chain says enough: what stands behind it follows at its writer.
    fn force(&mut self, shape: &Shape, writer: &Writer) -> Result<(), Stop> {
        let clock = self.clocks.get(writer.node);
        let mut beyond = self.beyond.get(writer.number);
        if !is_less(&clock, &beyond) {
            return Ok(());
        }
        for chain in 0..CHAINS {
            if clock[chain] < beyond[chain] {
                let reads = shape.writers.reads(writer.word, chain);
                let reached = first_from(reads, clock[chain]);
                beyond[chain] = end_of(&reads[..reached]);
                if let Some(other) = other_writer(&reads[reached..], writer.node) {
                    self.end_before(shape, writer.number, other)?;
                }
            }
        }
        self.beyond.set(writer.number, &beyond)?;
        Ok(())
    }

    /// Visits nodes until none waits; `Stuck` where there is a cycle, or no look is left.
    pub fn carry(&mut self, shape: &Shape) -> Result<(), Stop> {
        for _ in 0..self.looks {
            let Some(node) = self.queue.pop() else {
                return Ok(());
            };
            self.visit(shape, node)?;
            if self.looks == 0 {
                break;
            }
        }
        Err(Stop::Stuck)
    }
}

// The place of the first read whose last one is this node or one after it; the length where there is none.
fn first_from(reads: &[Read], node: u32) -> usize
    ensures { result ≤ length reads.now }
{
    let mut low = 0;
    let mut high = reads.len();
    while low < high {
        let middle = low + (high - low) / 2;
        if reads[middle].last < node {
            low = middle + 1;
        } else {
            high = middle;
        }
    }
    low
}

// The number after the last one of these reads; 0 where there is none.
fn end_of(reads: &[Read]) -> u32 {
    match reads.last() {
        Some(read) => read.last.saturating_add(1),
        None => 0,
    }
}

// The first writer but this one that is read, where not by this node itself.
fn other_writer(reads: &[Read], node: u32) -> Option<u32> {
    for read in reads {
        if read.source != node && read.last != node {
            return Some(read.source);
        }
    }
    None
}

// For each writer and chain, the number after the last read of its word there.
fn all_beyond(alloc: Global, writers: &Writers) -> Result<Vec<Clock>, AllocError> {
    let mut all = Vec::with_capacity(alloc, writers.all().len())?;
    for writer in writers.all() {
        let mut beyond = [0; CHAINS];
        for chain in 0..CHAINS {
            beyond[chain] = end_of(writers.reads(writer.word, chain));
        }
        all.push(beyond)?;
    }
    Ok(all)
}
