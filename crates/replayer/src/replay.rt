// A replay of a program by a log.
ghost use Rattle.std.specs.Prelude.{◌≡◌, ℕ, ◌<◌, All, IfOk, IfSome, List, [], OnErr, OnOk, MatchOption, length, map};
ghost use Rattle.replay_model.specs.RunLogs.{last_tags};
ghost use Rattle.replay_model.specs.Histories.{World, steps_of};
ghost use Rattle.replay_model.specs.Orders.{Respects};
ghost use Rattle.machine.specs.Cores.{report_of};
ghost use Rattle.replayer.specs.Differences.{part_of, PartsCompared, LogCompared};
ghost use Rattle.replayer.specs.Notes.{AreWrites};
ghost use Rattle.replayer.specs.Replays.{Replaying, unplayed, after_turn, world_by, world_of, thread_steps, ended, IsTurned, HasBegun};
ghost use Rattle.replayer.specs.Verdicts.{IsVerdict, IsExactByAnyOrder};
ghost use Rattle.replayer.specs.Seats.{seat_part, AreFresh, AreAllLeft, HasEnded, IsShown, AllRunOut, AllSettled, IsAnswer};

use crate::difference::{Difference, logged_side, tag_difference, thread_difference};
use crate::kept_steps::KeptSteps;
use crate::laws::replay_law;
use crate::notes::Written;
use crate::seat::{new_seat, run_to, run_to_end, side};
use crate::words::ReplayWords;
use dep_log::RunLog;
use light_base::{Cell, Event, Memory};
use machine::{End, Program, RunReport};
use running_thread::RunningThread;
use running_thread::cells::opening_cells;
use std::alloc::Global;
use std::marker::Model;

/// Whether a thread took the step to which its turn went.
#[derive(Clone, Copy, Debug, PartialEq, Eq)]
pub enum Turned {
    /// It has taken the step.
    Done,
    /// It ended before the step, like this.
    Short(End),
}

/// What comes of a replay.
#[derive(Debug, Drop)]
pub enum Replayed {
    /// Every thread's entries and tail and every last tag are as logged: the threads' reports, and the last values.
    Same(Vec<RunReport>, Vec<u32>),
    /// They are not: the first difference.
    Differs(Difference),
}

/// A program that is replayed by a log. Its threads run under the log's limits, each with the input numbers that the log
/// holds for it, and a write is made exactly where the log names it as a source or a last tag.
///
/// It is seen as the program, the log and the turns that were taken.
#[derive(Drop)]
pub struct Replay<'p> {
    program: &'p Program,
    log: &'p RunLog,
    words: ReplayWords,
    seats: Vec<RunningThread>,
    turns: Vec<Event>,
    alloc: Global,
}

impl<'p> Model for Replay<'p> {
    ghost use Rattle.replayer.specs.Replays.{Replaying};

    ghost Value = { Replaying };

    ghost use Rattle.replayer.specs.Seats.{IsReplaying};

    ghost view = { λ r. record { program = r.program.now; log = r.log.now; turns = r.turns.items } };

    ghost invariant = { λ r. IsReplaying (record { program = r.program.now; log = r.log.now; turns = r.turns.items }) r.words r.seats.items };
}

/// The threads before any step.
pub fn opening_seats(
    alloc: Global,
    program: &Program,
    log: &RunLog,
) -> Result<Vec<RunningThread>, Memory>
    requires { length program.now.threads ≡ length log.now.threads }
    ensures { IfOk result (λ seats. AreFresh program.now log.now (length program.now.threads) seats.items) }
{
    let mut seats = Vec::new(alloc);
    for thread in 0..program.threads_count() as u8 {
        seats.push(new_seat(alloc, program, log, thread)?)?;
    }
    Ok(seats)
}

/// For each thread the steps whose writes are made.
pub fn opening_kept(alloc: Global, log: &RunLog, count: u8) -> Result<Vec<KeptSteps>, Memory>
    ensures { IfOk result (λ kept. AreAllLeft log.now count kept.items) }
{
    let mut kept = Vec::with_capacity(alloc, usize::from(count))?;
    for thread in 0..count {
        kept.push(KeptSteps::of(alloc, log, thread)?)?;
    }
    Ok(kept)
}

// Runs each thread to its end, thread 0 first.
fn run_out(
    program: &Program,
    log: &RunLog,
    words: &mut ReplayWords,
    seats: &mut [RunningThread],
) -> Result<(), Memory>
    requires counted { length program.now.threads ≡ length log.now.threads }
    requires shown { (world : World) × IsShown program.now log.now world words.old seats.old }
    ensures shown { OnOk result (AllRunOut program.now log.now words.old seats.old words.new seats.new) }
    ensures settled { OnOk result (AllSettled program.now log.now words.old seats.old seats.new) }
{
    for thread in 0..seats.len() {
        run_to_end(program, log, words, &mut seats[thread])?;
    }
    Ok(())
}

// The first place at which the threads differ from what is logged of them.
fn threads_difference(log: &RunLog, seats: &[RunningThread]) -> Option<Difference>
    requires counted { length seats.now ≡ length log.now.threads }
    requires ended { All HasEnded seats.now }
    ensures { PartsCompared (map part_of log.now.threads) (map seat_part seats.now) result }
{
    for (thread, seat) in seats.iter().enumerate() {
        let logged = logged_side(&log.threads()[thread]);
        if let Some(difference) = thread_difference(thread as u8, &logged, &side(seat)) {
            return Some(difference);
        }
    }
    None
}

// The first place at which the threads or the last tags differ from what is logged.
fn first_difference(log: &RunLog, cells: &[Cell], seats: &[RunningThread]) -> Option<Difference>
    requires counted { length seats.now ≡ length log.now.threads }
    requires words { length cells.now ≡ length log.now.last_tags }
    requires ended { All HasEnded seats.now }
    ensures { LogCompared log.now (map seat_part seats.now) (last_tags cells.now) result }
{
    let last_tags = log.finals();
    if let Some(difference) = threads_difference(log, seats) {
        return Some(difference);
    }
    tag_difference(seats.len() as u8, last_tags, cells)
}

// What the threads report, in their order.
fn reports(alloc: Global, seats: Vec<RunningThread>) -> Result<Vec<RunReport>, Memory>
    requires { All HasEnded seats.items }
    ensures { IfOk result (λ reports. reports.items ≡ map (λ seat. report_of seat.core) seats.items) }
{
    let mut reports = Vec::with_capacity(alloc, seats.len())?;
    for seat in seats {
        reports.push(seat.core.report())?;
    }
    Ok(reports)
}

// The value of each word.
fn values(alloc: Global, cells: &[Cell]) -> Result<Vec<u32>, Memory>
    ensures { IfOk result (λ values. values.items ≡ map (λ cell. cell.value) cells.now) }
{
    let values = cells.iter().map(|cell| cell.value).collect(alloc)?;
    Ok(values)
}

// What comes of a replay whose threads have run to their ends.
fn answer(
    alloc: Global,
    log: &RunLog,
    cells: &[Cell],
    seats: Vec<RunningThread>,
) -> Result<Replayed, Memory>
    requires counted { length seats.items ≡ length log.now.threads }
    requires words { length cells.now ≡ length log.now.last_tags }
    requires ended { All HasEnded seats.items }
    ensures { IfOk result (IsAnswer log.now cells.now seats.items) }
{
    match first_difference(log, cells, &seats) {
        Some(difference) => Ok(Replayed::Differs(difference)),
        None => {
            let reports = reports(alloc, seats)?;
            let values = values(alloc, cells)?;
            Ok(Replayed::Same(reports, values))
        }
    }
}

impl<'p> Replay<'p> {
    // The opening state, with these notes.
    fn with_notes(
        alloc: Global,
        program: &'p Program,
        log: &'p RunLog,
        notes: Option<Vec<Written>>,
    ) -> Result<Replay<'p>, Memory>
        requires threads { length program.now.threads ≡ length log.now.threads }
        requires words { length program.now.words ≡ length log.now.last_tags }
        requires notes { IfSome notes (λ writes. writes.items ≡ []) }
        ensures { IfOk result (λ replay. replay ≡ unplayed program.now log.now) }
    {
        let cells = opening_cells(alloc, program.words())?;
        let kept = opening_kept(alloc, log, program.threads_count() as u8)?;
        let seats = opening_seats(alloc, program, log)?;
        Ok(Replay {
            program,
            log,
            words: ReplayWords { cells, kept, notes },
            seats,
            turns: Vec::new(alloc),
            alloc,
        })
    }

    /// The opening state: each word has its initial value, which nobody wrote, and no thread has taken a step. The log is
    /// one of as many threads and words as the program has.
    pub fn new(alloc: Global, program: &'p Program, log: &'p RunLog) -> Result<Replay<'p>, Memory>
        requires threads { length program.now.threads ≡ length log.now.threads }
        requires words { length program.now.words ≡ length log.now.last_tags }
        ensures { IfOk result (λ replay. replay ≡ unplayed program.now log.now) }
    {
        Replay::with_notes(alloc, program, log, None)
    }

    /// The same of a replay that notes the writes of the threads, for `finish_noted`.
    pub fn noting(
        alloc: Global,
        program: &'p Program,
        log: &'p RunLog,
    ) -> Result<Replay<'p>, Memory>
        requires threads { length program.now.threads ≡ length log.now.threads }
        requires words { length program.now.words ≡ length log.now.last_tags }
        ensures { IfOk result (λ replay. replay ≡ unplayed program.now log.now) }
    {
        Replay::with_notes(alloc, program, log, Some(Vec::new(alloc)))
    }

    /// How many memory steps a thread has taken.
    pub fn steps_of(&self, thread: u8) -> u32
        requires { thread < length self.now.program.threads }
        ensures { result ≡ length (thread_steps self.now thread) }
    {
        self.seats[usize::from(thread)].core.steps()
    }

    /// The turns that were taken.
    pub fn turns(&self) -> &[Event]
        ensures { result.now ≡ self.now.turns }
    {
        &self.turns
    }

    /// Gives the event's thread a turn: it runs up to and including this memory step, or to its end. A thread that has
    /// taken the step already does nothing. After an `Err` the thread is at some step before the event, and the same turn
    /// may be asked for again.
    pub fn turn(&mut self, event: Event) -> Result<Turned, Memory>
        requires { event.thread < length self.old.program.threads }
        ensures after { OnOk result (self.new ≡ after_turn self.old event) }
        ensures turned { IfOk result (IsTurned self.new event) }
        ensures err { OnErr result (HasBegun self.old event self.new) }
    {
        self.turns.reserve(1)?;
        let place = usize::from(event.thread);
        let seat = &mut self.seats[place];
        match run_to(self.program, self.log, &mut self.words, seat, event.step) {
            Ok(None) => {
                self.turns.push_reserved(event);
                Ok(Turned::Done)
            }
            Ok(Some(end)) => {
                self.turns.push_reserved(event);
                Ok(Turned::Short(end))
            }
            Err(refused) => {
                let step = self.seats[place].core.steps();
                self.turns.push_reserved(Event {
                    thread: event.thread,
                    step,
                });
                Err(refused)
            }
        }
    }

    // Runs each thread to its end, and compares; and what is noted.
    fn settle(self) -> Result<(Replayed, Option<Vec<Written>>), Memory>
        ensures verdict { IfOk result (λ settled. IsVerdict self.entry.program self.entry.log (ended self.entry) settled.0) }
        ensures exact { IfOk result (λ settled. IsExactByAnyOrder self.entry settled.0) }
        ensures noted { IfOk result (λ settled. IfSome settled.1 (λ writes. AreWrites (ended self.entry).threads writes.items)) }
    {
        let Replay {
            program,
            log,
            mut words,
            mut seats,
            turns: _,
            alloc,
        } = self;
        replay_law();
        run_out(program, log, &mut words, &mut seats)?;
        let replayed = answer(alloc, log, &words.cells, seats)?;
        Ok((replayed, words.notes))
    }

    /// Runs each thread to its end, thread 0 first, and compares: `Same` exactly where the entries, the numbers of steps,
    /// of instructions and of input numbers taken and the ends of all threads, and the last tags of all words are those of
    /// the log; and else the first difference.
    pub fn finish(self) -> Result<Replayed, Memory>
        ensures verdict { IfOk result (IsVerdict self.entry.program self.entry.log (ended self.entry)) }
        // After the turns of an order that respects the log: exactly where some runs fit the log, and then with their
        // reports and with the values that the last tags name.
        ensures exact { IfOk result (IsExactByAnyOrder self.entry) }
    {
        let (replayed, _) = self.settle()?;
        Ok(replayed)
    }

    /// The same of a replay that notes the writes, with all that its threads made, of each the step and the word. Where there
    /// was no memory for a note, or the replay notes none, this is want of memory.
    pub fn finish_noted(self) -> Result<(Replayed, Vec<Written>), Memory>
        ensures verdict { IfOk result (λ noted. IsVerdict self.entry.program self.entry.log (ended self.entry) noted.0) }
        ensures exact { IfOk result (λ noted. IsExactByAnyOrder self.entry noted.0) }
        ensures writes { IfOk result (λ noted. AreWrites (ended self.entry).threads noted.1.items) }
    {
        match self.settle()? {
            (replayed, Some(writes)) => Ok((replayed, writes)),
            (_, None) => Err(Memory),
        }
    }
}
