// Which workers run the threads of a program, and how many do the jobs of a batch.
ghost use Rattle.std.specs.Prelude.{◌≡◌, ◌<◌, ◌≤◌, ◌^◌};
ghost use Rattle.light_top.specs.Crews.{AreWorkers, IsCrew, most_workers, crew_or_none, workers_or_none};

use std::marker::Model;

/// A number of workers, 1 to 15, and how many memory steps a thread takes in its turn on one, 1 to 268,435,455.
#[derive(Drop)]
pub struct Crew {
    workers: u8,
    slice: u32,
}

impl Model for Crew {
    ghost use Rattle.light_top.specs.Crews.{CrewValue, IsCrew};

    ghost Value = { CrewValue };

    ghost view = { λ c. record { workers = c.workers; slice = c.slice } };

    ghost invariant = { λ c. IsCrew (record { workers = c.workers; slice = c.slice }) };
}

impl Crew {
    /// None exactly where one of the two is 0.
    pub fn new(workers: u8, slice: u32) -> Option<Crew>
        requires few { workers ≤ most_workers }
        ensures { result ≡ crew_or_none workers slice }
    {
        if workers > 0 && slice > 0 {
            Some(Crew { workers, slice })
        } else {
            None
        }
    }

    pub fn workers(&self) -> u8
        ensures value { result ≡ self.now.workers }
        ensures rules { IsCrew self.now }
    {
        self.workers
    }

    pub fn slice(&self) -> u32
        ensures value { result ≡ self.now.slice }
        ensures rules { IsCrew self.now }
    {
        self.slice
    }
}

/// A number of workers, 1 to 15.
#[derive(Drop)]
pub struct Workers {
    number: u8,
}

impl Model for Workers {
    ghost use Rattle.std.specs.Prelude.{ℕ};
    ghost use Rattle.light_top.specs.Crews.{AreWorkers};

    ghost Value = { ℕ };

    ghost view = { λ w. w.number };

    ghost invariant = { λ w. AreWorkers w.number };
}

impl Workers {
    /// None exactly where the number is 0.
    pub fn new(number: u8) -> Option<Workers>
        requires few { number ≤ most_workers }
        ensures { result ≡ workers_or_none number }
    {
        if number > 0 {
            Some(Workers { number })
        } else {
            None
        }
    }

    pub fn count(&self) -> u8
        ensures value { result ≡ self.now }
        ensures rules { AreWorkers self.now }
    {
        self.number
    }
}
