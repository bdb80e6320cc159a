// What a search for a placing works on.
ghost use Rattle.std.specs.Prelude.{◌≡◌, ◌<◌, All, IfOk, length, map};
ghost use Rattle.audit_laws.specs.Placings.{placing_turns};
ghost use Rattle.audit.specs.Positions.{placed_list, placed_at};
ghost use Rattle.audit.specs.Constraints.{is_read};
ghost use Rattle.audit.specs.Tables.{runs_in};
ghost use Rattle.audit.specs.Cases.{IsCase, case_of};

use crate::counting::{all_nexts, all_starts, counts_of};
use crate::edges::base_edges;
use crate::placed::list_placed;
use crate::positions::{mark_reads, mark_writes, place_entries, place_last_tags};
use crate::rows::{Row, rows_of};
use crate::turns::turns_of;
use constraints::Problem;
use dep_log::RunLog;
use light_base::{Event, Memory};
use machine::Program;
use order_solver::Rivals;
use plain_search::Edge;
use replayer::Written;
use std::alloc::Global;
use std::marker::Model;
use std::snapshot::Snapshot;

/// A log that is audited: its program, its problem, an order that respects it, and the writes of the runs that came of a
/// replay by that order.
#[derive(Clone, Copy)]
pub(crate) struct Case<'a> {
    pub(crate) program: &'a Program,
    pub(crate) log: &'a RunLog,
    pub(crate) problem: &'a Problem,
    pub(crate) order: &'a Vec<Event>,
    pub(crate) writes: &'a [Written],
}

/// The steps that have a place, with what a search for a placing asks of them. It names them by their positions in one list,
/// by thread and then by number.
///
/// It is seen as the program, the log, and the order of the replay from which the runs come.
#[derive(Drop)]
pub(crate) struct Placing {
    // Nothing at run time: for the clauses.
    program: Snapshot<Program>,
    log: Snapshot<RunLog>,
    order: Snapshot<Vec<Event>>,
    steps: Vec<Event>,
    counts: Vec<u32>,
    base: Vec<Edge>,
    // The writes of each word.
    sources: Vec<Row>,
    // The last reads of each step, where it is a write that was read.
    lasts: Vec<Row>,
    // Where the writes of each thread begin among those of each word.
    starts: Vec<Row>,
    // From each place among the writes of each word the next one that was read.
    nexts: Vec<Row>,
}

impl Model for Placing {
    ghost use Rattle.audit.specs.Tables.{Audited, IsPlacing};

    ghost Value = { Audited };

    ghost view = { λ p. record { program = p.program.value; log = p.log.value; order = p.order.value.items } };

    ghost invariant = { λ p. IsPlacing (record { program = p.program.value; log = p.log.value; order = p.order.value.items })
        p.steps.items p.counts.items p.base.items p.sources.items p.lasts.items p.starts.items p.nexts.items };
}

// The most steps that positions can name.
const MOST: usize = 4_294_967_295;

impl Placing {
    /// What the case asks for. The one error is want of memory.
    pub(crate) fn of(alloc: Global, case: &Case) -> Result<Placing, Memory>
        requires { IsCase case.now }
        ensures { IfOk result (λ placing. placing ≡ case_of case.now) }
    {
        let log = case.log;
        let threads = log.threads().len() as u8;
        let steps = list_placed(alloc, case.problem, case.writes)?;
        if steps.len() > MOST {
            return Err(Memory);
        }
        let placed = place_entries(alloc, log, &steps)?;
        let last_tags = place_last_tags(alloc, log, &steps)?;
        let writes = mark_writes(alloc, &steps, case.writes)?;
        let reads = mark_reads(alloc, &placed)?;
        let sources = rows_of(alloc, log.finals().len(), &writes)?;
        let lasts = rows_of(alloc, steps.len(), &reads)?;
        let counts = counts_of(alloc, threads, &steps)?;
        let base = base_edges(alloc, &placed, &sources, &last_tags)?;
        let starts = all_starts(alloc, threads, &steps, &sources)?;
        let nexts = all_nexts(alloc, &lasts, &sources)?;
        Ok(Placing {
            program: Snapshot::of(case.program),
            log: Snapshot::of(log),
            order: Snapshot::of(case.order),
            steps,
            counts,
            base,
            sources,
            lasts,
            starts,
            nexts,
        })
    }

    // Whether the step at a position is a write that was read.
    fn is_read(&self, position: u32) -> bool
        requires { position < length (placed_list self.now.log (runs_in self.now)) }
        ensures { result ≡ is_read self.now.log (placed_at self.now.log (runs_in self.now) position) }
    {
        !self.lasts[position as usize].numbers().is_empty()
    }

    // The steps at these positions.
    fn steps_at(&self, alloc: Global, line: &[u32]) -> Result<Vec<Event>, Memory>
        requires { All (λ p. p < length (placed_list self.now.log (runs_in self.now))) line.now }
        ensures { IfOk result (λ order. order.items ≡ map (placed_at self.now.log (runs_in self.now)) line.now) }
    {
        let mut order = Vec::with_capacity(alloc, line.len())?;
        for position in line {
            order.push(self.steps[*position as usize])?;
        }
        Ok(order)
    }

    /// The turns of the steps at these positions.
    pub(crate) fn turns(&self, alloc: Global, line: &[u32]) -> Result<Vec<u8>, Memory>
        requires { All (λ p. p < length (placed_list self.now.log (runs_in self.now))) line.now }
        ensures { IfOk result (λ turns. turns.items ≡
            placing_turns (length self.now.log.threads) (map (placed_at self.now.log (runs_in self.now)) line.now)) }
    {
        let order = self.steps_at(alloc, line)?;
        turns_of(alloc, self.counts.len() as u8, &order)
    }
}

impl Rivals for Placing {
    ghost use Rattle.audit.specs.Tables.{rivalry_in};

    ghost rivalry = { rivalry_in };

    fn counts(&self) -> &[u32] {
        &self.counts
    }

    fn base(&self) -> &[Edge] {
        &self.base
    }

    fn words(&self) -> u16 {
        self.sources.len() as u16
    }

    fn sources(&self, word: u16) -> &[u32] {
        self.sources[usize::from(word)].numbers()
    }

    fn last_reads(&self, word: u16, source: u32) -> &[u32] {
        let place = source as usize;
        let writes = self.sources[usize::from(word)].numbers();
        let reads = self.lasts[writes[place] as usize].numbers();
        if reads.is_empty() {
            &writes[place..place + 1]
        } else {
            reads
        }
    }

    fn group(&self, word: u16, thread: u8) -> (u32, u32) {
        let starts = self.starts[usize::from(word)].numbers();
        let place = usize::from(thread);
        (starts[place], starts[place + 1])
    }

    fn next_rival(&self, word: u16, source: u32, from: u32) -> u32 {
        let writes = self.sources[usize::from(word)].numbers();
        if self.is_read(writes[source as usize]) || from as usize > writes.len() {
            return from;
        }
        self.nexts[usize::from(word)].numbers()[from as usize]
    }
}
