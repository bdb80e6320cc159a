// Clocks, and tables of them that can be set back.
use std::alloc::{AllocError, Global};

/// The most chains there may be.
pub const CHAINS: usize = 16;

/// A number for each chain.
pub type Clock = [u32; CHAINS];

/// Greater than each node.
pub const NEVER: u32 = u32::MAX;

/// Whether a number of the one is less than that of the other.
pub fn is_less(one: &Clock, other: &Clock) -> bool {
    let mut less = false;
    for chain in 0..CHAINS {
        less |= one[chain] < other[chain];
    }
    less
}

// The lesser number for each chain.
fn least(one: &Clock, other: &Clock) -> Clock {
    let mut clock = *one;
    for chain in 0..CHAINS {
        clock[chain] = clock[chain].min(other[chain]);
    }
    clock
}

// A clock that was overwritten.
#[derive(Clone, Copy)]
struct Overwritten {
    row: u32,
    clock: Clock,
}

/// Clocks in rows from 0 on. Once they are kept, what is overwritten can be brought back.
#[derive(Drop)]
pub struct Clocks {
    clocks: Vec<Clock>,
    overwritten: Vec<Overwritten>,
    // The era in which each row was last put among the overwritten ones, and the present era. One ends with each `keep` and
    // `restore`, and a row is put there once in it. Before the first `keep`, in era 0, none is.
    kept_in: Vec<u32>,
    era: u32,
}

impl Clocks {
    /// These clocks. What is overwritten is not kept at first.
    pub fn of(alloc: Global, clocks: Vec<Clock>) -> Result<Clocks, AllocError> {
        let kept_in = vec![in alloc; 0; clocks.len()]?;
        Ok(Clocks {
            clocks,
            overwritten: Vec::new(alloc),
            kept_in,
            era: 0,
        })
    }

    /// A clock; one past the last has `NEVER` for each chain.
    pub fn get(&self, row: u32) -> Clock {
        match self.clocks.get(row as usize) {
            Some(clock) => *clock,
            None => [NEVER; CHAINS],
        }
    }

    /// The number of a clock for a chain.
    pub fn at(&self, row: u32, chain: usize) -> u32 {
        match self.clocks.get(row as usize) {
            Some(clock) if chain < CHAINS => clock[chain],
            _ => NEVER,
        }
    }

    // Whether a row was not put among the overwritten ones in this era. From now on it was.
    fn is_new(&mut self, row: u32) -> bool {
        match self.kept_in.get_mut(row as usize) {
            Some(kept_in) => {
                let is_new = *kept_in != self.era;
                *kept_in = self.era;
                is_new
            }
            None => false,
        }
    }

    /// Overwrites a clock.
    pub fn set(&mut self, row: u32, to: &Clock) -> Result<(), AllocError> {
        if self.is_new(row) {
            let clock = self.get(row);
            self.overwritten.push(Overwritten { row, clock })?;
        }
        if let Some(clock) = self.clocks.get_mut(row as usize) {
            *clock = *to;
        }
        Ok(())
    }

    /// Lowers a clock to another one where that is less. Whether it changed.
    pub fn lower(&mut self, row: u32, by: &Clock) -> Result<bool, AllocError> {
        let clock = self.get(row);
        if !is_less(by, &clock) {
            return Ok(false);
        }
        self.set(row, &least(&clock, by))?;
        Ok(true)
    }

    /// From now on what is overwritten can be brought back: nothing was since.
    pub fn keep(&mut self) {
        self.era = self.era.wrapping_add(1);
        self.overwritten.clear();
    }

    /// Brings back what was overwritten since `keep`.
    pub fn restore(&mut self) {
        while let Some(old) = self.overwritten.pop() {
            let before = old.clock;
            if let Some(clock) = self.clocks.get_mut(old.row as usize) {
                *clock = before;
            }
        }
        self.era = self.era.wrapping_add(1);
    }
}
