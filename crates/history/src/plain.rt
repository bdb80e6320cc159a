// The plain machine: all threads of a program, taken step by step on one memory.
ghost use Rattle.std.specs.Prelude.{◌≡◌, ℕ, ◌+◌, ◌<◌, ◌≤◌, Bool, true, false, not, IfOk, OnOk, OnErr, [], ◌∷◌, length, map, All};
ghost use Rattle.std.specs.List.{range_with_len};
ghost use Rattle.replay_model.specs.Steps.{accesses_from};
ghost use Rattle.replay_model.specs.ThreadLogs.{thread_log};
ghost use Rattle.replay_model.specs.Histories.{round_turns};
ghost use Rattle.machine.specs.Runs.{reports_of, rounds_of, values_of};
ghost use Rattle.history.specs.Played.{unplayed, world_of, thread_steps, after_turns, steps_in, HasBegun, IsOver};
ghost use Rattle.history.specs.Playing.{AreFresh, MayReport, seat_report};
ghost use Rattle.history.specs.Stepping.{IsStep};

use crate::seat::Seat;
use crate::words::PlainWords;
use light_base::{Cell, Memory};
use machine::{Access, End, Inputs, Limits, Program, RunReport};
use replay_model::Entry;
use running_thread::Setting;
use running_thread::cells::opening_cells;
use std::alloc::Global;
use std::marker::Model;

/// What a thread did when it was told to take a step.
#[derive(Clone, Copy, Debug, PartialEq, Eq)]
pub enum Stepped {
    /// It took this memory step.
    Took(Access),
    /// None, since it has ended.
    Ended(End),
}

/// All threads of a program on one memory, each step of them taken when it is asked for. It is the slow machine: it
/// keeps every step.
///
/// It is seen as the program, the limits, the inputs and the history that was taken, which is one thread number for each
/// step.
#[derive(Drop)]
pub struct Plain<'p> {
    program: &'p Program,
    limits: Limits,
    inputs: &'p Inputs,
    words: PlainWords,
    seats: Vec<Seat>,
    taken: Vec<u8>,
    alloc: Global,
}

impl<'p> Model for Plain<'p> {
    ghost use Rattle.history.specs.Played.{Played};

    ghost Value = { Played };

    ghost use Rattle.history.specs.Playing.{IsPlaying};

    ghost view = { λ p. record { program = p.program.now; limits = p.limits; inputs = p.inputs.now; taken = p.taken.items } };

    ghost invariant = { λ p. IsPlaying (record { program = p.program.now; limits = p.limits; inputs = p.inputs.now; taken = p.taken.items })
        p.words p.seats.items };
}

// The threads before any step.
fn opening_seats(
    alloc: Global,
    program: &Program,
    limits: &Limits,
    inputs: &Inputs,
) -> Result<Vec<Seat>, Memory>
    requires { length inputs.now ≡ length program.now.threads }
    ensures { IfOk result (λ seats. AreFresh program.now limits.now inputs.now (length program.now.threads) seats.items) }
{
    let mut seats = Vec::new(alloc);
    for thread in 0..program.threads_count() as u8 {
        let on = Setting {
            program,
            limits,
            inputs: inputs.threads(usize::from(thread)),
        };
        seats.push(Seat::new(alloc, thread, &on)?)?;
    }
    Ok(seats)
}

// What the threads report, in their order.
fn reports(
    alloc: Global,
    program: &Program,
    limits: &Limits,
    inputs: &Inputs,
    seats: Vec<Seat>,
) -> Result<Vec<RunReport>, Memory>
    requires listed { length inputs.now ≡ length program.now.threads }
    requires ended { All (MayReport program.now limits.now inputs.now) seats.items }
    ensures { IfOk result (λ reports. reports.items ≡ map (seat_report program.now limits.now inputs.now) seats.items) }
{
    let mut reports = Vec::with_capacity(alloc, seats.len())?;
    for seat in seats {
        reports.push(seat.into_report(program, limits, inputs)?)?;
    }
    Ok(reports)
}

impl<'p> Plain<'p> {
    /// The opening state: each word has its initial value, which nobody wrote, and no thread has taken a step.
    pub fn new(
        alloc: Global,
        program: &'p Program,
        limits: Limits,
        inputs: &'p Inputs,
    ) -> Result<Plain<'p>, Memory>
        requires { length inputs.now ≡ length program.now.threads }
        ensures { IfOk result (λ plain. plain ≡ unplayed program.now limits inputs.now) }
    {
        let cells = opening_cells(alloc, program.words())?;
        let seats = opening_seats(alloc, program, &limits, inputs)?;
        Ok(Plain {
            program,
            limits,
            inputs,
            words: PlainWords { cells },
            seats,
            taken: Vec::new(alloc),
            alloc,
        })
    }

    /// Takes a step of a thread; where it has ended, nothing changes. After an `Err` all is as before.
    pub fn step(&mut self, thread: u8) -> Result<Stepped, Memory>
        requires { thread < length self.old.program.threads }
        ensures ok { IfOk result (λ stepped. IsStep self.old thread stepped self.new) }
        ensures err { OnErr result (self.new ≡ self.old) }
    {
        self.taken.reserve(1)?;
        let place = usize::from(thread);
        let on = Setting {
            program: self.program,
            limits: &self.limits,
            inputs: self.inputs.threads(place),
        };
        match self.seats[place].step(&on, &mut self.words)? {
            Stepped::Took(access) => {
                self.taken.push_reserved(thread);
                Ok(Stepped::Took(access))
            }
            Stepped::Ended(end) => Ok(Stepped::Ended(end)),
        }
    }

    // How many threads there are.
    fn threads_count(&self) -> u8
        ensures count { result ≡ length self.now.program.threads }
        ensures small { result ≤ 15 }
    {
        self.program.threads_count() as u8
    }

    // A turn of one thread. Whether it took a step.
    fn turn(&mut self, thread: u8) -> Result<bool, Memory>
        requires { thread < length self.old.program.threads }
        ensures ok { IfOk result (λ went. self.new ≡ after_turns self.old (thread ∷ [])) }
        ensures idle { IfOk result (λ went. went ≡ false → steps_in self.old (thread ∷ []) ≡ []) }
        ensures err { OnErr result (self.new ≡ self.old) }
    {
        match self.step(thread) {
            Ok(Stepped::Took(_)) => Ok(true),
            Ok(Stepped::Ended(_)) => Ok(false),
            Err(refused) => Err(refused),
        }
    }

    // A turn of each thread. Whether one of them took a step.
    fn round(&mut self) -> Result<bool, Memory>
        ensures ok { IfOk result (λ went. self.new ≡ after_turns self.old (range_with_len 0 (length self.old.program.threads))) }
        ensures idle { IfOk result (λ went. went ≡ false → steps_in self.old (range_with_len 0 (length self.old.program.threads)) ≡ []) }
        ensures err { OnErr result (HasBegun self.old (range_with_len 0 (length self.old.program.threads)) self.new) }
    {
        let mut went = false;
        for thread in 0..self.threads_count() {
            if self.turn(thread)? {
                went = true;
            }
        }
        Ok(went)
    }

    // How many steps a thread may take.
    fn most_steps(&self) -> u32
        ensures { result ≡ self.now.limits.steps }
    {
        self.limits.steps()
    }

    /// Takes rounds until every thread has ended; in a round the threads 0, 1, 2 and so on take one step each, and
    /// ended ones are passed over. After an `Err` some first ones of these steps were taken.
    #[inline(never)]
    pub fn turns(&mut self) -> Result<(), Memory>
        ensures ok { OnOk result (self.new ≡ after_turns self.old (round_turns (length self.old.program.threads) self.old.limits.steps)) }
        ensures over { OnOk result (IsOver self.new) }
        ensures rounds { OnOk result (self.old.taken ≡ [] → self.new.taken ≡ rounds_of self.old.program self.old.limits self.old.inputs) }
        ensures err { OnErr result (HasBegun self.old (round_turns (length self.old.program.threads) self.old.limits.steps) self.new) }
    {
        for _round in 0..self.most_steps() {
            if !self.round()? {
                return Ok(());
            }
        }
        Ok(())
    }

    /// The history so far: one thread number for each step.
    pub fn taken(&self) -> &[u8]
        ensures { result.now ≡ self.now.taken }
    {
        &self.taken
    }

    /// The steps of a thread so far.
    pub fn accesses(&self, thread: u8) -> &[Access]
        requires { thread < length self.now.program.threads }
        ensures { result.now ≡ accesses_from 1 (thread_steps self.now thread) }
    {
        &self.seats[usize::from(thread)].accesses
    }

    /// The log of a thread so far: its entries by rising first.
    pub fn entries(&self, thread: u8) -> &[Entry]
        requires { thread < length self.now.program.threads }
        ensures { result.now ≡ thread_log (thread_steps self.now thread) }
    {
        self.seats[usize::from(thread)].thread.log.entries()
    }

    /// The words, each with its last writer.
    pub fn cells(&self) -> &[Cell]
        ensures { result.now ≡ (world_of self.now).memory }
    {
        &self.words.cells
    }

    /// The last value of each word.
    pub fn values(&self) -> Result<Vec<u32>, Memory>
        ensures { IfOk result (λ values. values.items ≡ values_of (world_of self.now)) }
    {
        let values = self
            .words
            .cells
            .iter()
            .map(|cell| cell.value)
            .collect(self.alloc)?;
        Ok(values)
    }

    /// What each thread reports, where every thread has ended.
    pub fn into_reports(self) -> Result<Vec<RunReport>, Memory>
        requires { IsOver self }
        ensures { IfOk result (λ reports. reports.items ≡ reports_of self.entry.program self.entry.limits self.entry.inputs (world_of self.entry)) }
    {
        let Plain {
            program,
            limits,
            inputs,
            words: _,
            seats,
            taken: _,
            alloc,
        } = self;
        reports(alloc, program, &limits, inputs, seats)
    }
}
