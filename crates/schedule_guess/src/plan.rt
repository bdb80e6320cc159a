// An order that is made from its front: the nodes that are placed, and whose turn comes next.
ghost use Rattle.std.specs.Prelude.{◌<◌};

use crate::clocks::{CHAINS, Clock, is_less};
use crate::reach::Reach;
use crate::shape::Shape;
use crate::stop::Stop;
use std::alloc::Global;

#[derive(Drop)]
pub struct Plan {
    reach: Reach,
    // For each word and chain the next node that writes the word and is not placed; `NEVER` where there is none.
    turns: Vec<Clock>,
    order: Vec<u32>,
}

impl Plan {
    /// With no node placed.
    pub fn of(alloc: Global, shape: &Shape, reach: Reach) -> Result<Plan, Stop> {
        Ok(Plan {
            reach,
            turns: Vec::from_slice(alloc, shape.writers.firsts())?,
            order: Vec::with_capacity(alloc, shape.chains.nodes() as usize)?,
        })
    }

    /// Places all nodes; `Stuck` where no turn is found that closes no cycle.
    pub fn order(mut self, shape: &Shape) -> Result<Vec<u32>, Stop> {
        let nodes = shape.chains.nodes();
        for _ in 0..nodes {
            if self.order.len() == nodes as usize {
                break;
            }
            let ready = self.ready(shape);
            if !self.place_decided(shape, &ready)? {
                self.choose(shape, &ready)?;
            }
        }
        Ok(self.order)
    }

    // The chains with a node left to whose front no other front leads.
    fn ready(&self, shape: &Shape) -> [bool; CHAINS] {
        let fronts = self.reach.fronts();
        let mut blocked = [false; CHAINS];
        let mut left = [false; CHAINS];
        for chain in 0..CHAINS {
            left[chain] = fronts[chain] < shape.chains.ends()[chain];
            if left[chain] {
                let clock = self.reach.clock(fronts[chain]);
                let own = blocked[chain];
                for other in 0..CHAINS {
                    blocked[other] |= clock[other] <= fronts[other];
                }
                blocked[chain] = own;
            }
        }
        for chain in 0..CHAINS {
            left[chain] &= !blocked[chain];
        }
        left
    }

    // Places each node that is ready and whose turn is decided. Whether there was one.
    fn place_decided(&mut self, shape: &Shape, ready: &[bool; CHAINS]) -> Result<bool, Stop> {
        let mut placed = false;
        for chain in 0..CHAINS {
            let node = self.reach.fronts()[chain];
            if ready[chain] && self.is_decided(shape, node) {
                self.place(shape, node, chain)?;
                placed = true;
            }
        }
        Ok(placed)
    }

    // Whether the node leads to each one that may write one of its words next.
    fn is_decided(&self, shape: &Shape, node: u32) -> bool {
        let clock = self.reach.clock(node);
        for writer in shape.writers.at(node) {
            if let Some(turns) = self.turns.get(writer.word as usize) {
                if is_less(turns, &clock) {
                    return false;
                }
            }
        }
        true
    }

    // Places the front of a chain.
    fn place(&mut self, shape: &Shape, node: u32, chain: usize) -> Result<(), Stop>
        requires { chain < 16 }
    {
        for writer in shape.writers.at(node) {
            if let Some(turns) = self.turns.get_mut(writer.word as usize) {
                turns[chain] = writer.next;
            }
        }
        self.reach.pass(chain);
        self.order.push(node)?;
        Ok(())
    }

    // Places the first node that is ready and whose turn closes no cycle.
    fn choose(&mut self, shape: &Shape, ready: &[bool; CHAINS]) -> Result<(), Stop> {
        for chain in 0..CHAINS {
            if ready[chain] {
                let node = self.reach.fronts()[chain];
                if self.take_turn(shape, node, chain)? {
                    return self.place(shape, node, chain);
                }
            }
        }
        Err(Stop::Stuck)
    }

    // Puts a node before each other one that waits to write one of its words, and carries on what follows. Where that closes a
    // cycle, all is as before.
    fn take_turn(&mut self, shape: &Shape, node: u32, chain: usize) -> Result<bool, Stop>
        requires { chain < 16 }
    {
        match self.put_first(shape, node, chain) {
            Ok(()) => {
                self.reach.keep();
                Ok(true)
            }
            Err(Stop::Stuck) => {
                self.reach.restore();
                Ok(false)
            }
            Err(Stop::Memory) => Err(Stop::Memory),
        }
    }

    fn put_first(&mut self, shape: &Shape, node: u32, chain: usize) -> Result<(), Stop>
        requires { chain < 16 }
    {
        for writer in shape.writers.at(node) {
            if let Some(turns) = self.turns.get(writer.word as usize) {
                let mut turns = *turns;
                turns[chain] = writer.next;
                self.reach.end_before_all(shape, writer.number, &turns)?;
            }
        }
        self.reach.carry(shape)
    }
}
