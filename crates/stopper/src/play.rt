// A play up to a cut.
ghost use Rattle.std.specs.Prelude.{◌≡◌, ◌+◌, ◌<◌, ◌≤◌, true, false, All, is_some, min, OnOk, Some, length};
ghost use Rattle.replay_model.specs.Histories.{World};
ghost use Rattle.replay_model.specs.Steps.{has_ended, reads, word_of};
ghost use Rattle.replay_model.specs.WellFormed.{IsWellFormed};
ghost use Rattle.machine.specs.Cores.{took};
ghost use Rattle.machine.specs.Inputs.{inputs_of};
ghost use Rattle.machine.specs.Laws.{taken_in};
ghost use Rattle.dep_log.specs.AccessLogs.{with_found};
ghost use Rattle.replayer.specs.Seats.{IsAt};
ghost use Rattle.cut_laws.specs.Cuts.{number_of};
ghost use Rattle.stopper.specs.Plays.{Steps, Goes, CanGoOn, TakesTurns, ComesToEnd};

use dep_log::{DepLog, RunLog};
use light_base::{Cell, Event, Memory};
use machine::{Core, Program, Want};
use replayer::{ReplayWords, run_to};
use running_thread::cells::word_of;
use running_thread::{RunningThread, StepWords};

// What is played: the program, the log, and how far each thread goes.
#[derive(Clone, Copy)]
pub(crate) struct Plan<'a> {
    pub(crate) program: &'a Program,
    pub(crate) log: &'a RunLog,
    pub(crate) numbers: &'a [u32],
}

// Tells the log and the core what the pending step, which has this number, found.
fn tell(log: &mut DepLog, core: &mut Core, want: &Want, found: Option<Cell>, number: u32)
    requires pending { core.old.pending ≡ Some want.now }
    requires lives { has_ended want.now ≡ false }
    requires found { is_some found ≡ reads want.now }
    requires word { word_of want.now < log.old.words }
    requires number { 0 < number }
    requires later { All (λ entry. entry.last < number) log.old.entries }
    requires room { reads want.now ≡ true → length log.old.entries < log.old.limit }
    ensures words { log.new.words ≡ log.old.words }
    ensures limit { log.new.limit ≡ log.old.limit }
    ensures entries { log.new.entries ≡ with_found number (word_of want.now) found log.old.entries }
    ensures core { core.new ≡ took core.old found }
{
    match found {
        Some(cell) => {
            log.saw(word_of(want), cell.tag, number);
            core.found(cell);
        }
        None => core.stored(),
    }
}

// The numbers that the log holds for a thread.
fn inputs_of(log: &RunLog, thread: u8) -> &[u32]
    requires { thread < length log.now.threads }
    ensures value { result.now ≡ inputs_of (taken_in log.now) thread }
    ensures short { length result.now ≤ 65536 }
    ensures rules { IsWellFormed log.now }
{
    log.threads()[usize::from(thread)].taken()
}

// Takes the thread's next step, and no local instruction after it; where it has ended, nothing changes.
fn take_step(
    program: &Program,
    log: &RunLog,
    words: &mut ReplayWords,
    thread: &mut RunningThread,
) -> Result<(), Memory>
    requires counted { length program.now.threads ≡ length log.now.threads }
    requires shown { (world : World) × IsAt program.now log.now world thread.old.core.thread words.old thread.old }
    ensures { OnOk result (Steps program.now log.now words.old thread.old words.new thread.new) }
{
    let full = thread.log.is_full();
    let inputs = inputs_of(log, thread.core.thread());
    let want = thread.core.advance(program, log.limits(), inputs, full)?;
    if let Want::Ended(_) = want {
        return Ok(());
    }
    let step = thread.core.steps() + 1;
    let event = Event {
        thread: thread.core.thread(),
        step,
    };
    let found = words.take(event, &want);
    tell(&mut thread.log, &mut thread.core, &want, found, step);
    Ok(())
}

// Gives a thread a turn up to and including this step, after which it stands right there. A thread that has taken the
// step already does nothing.
fn go_to(
    program: &Program,
    log: &RunLog,
    words: &mut ReplayWords,
    thread: &mut RunningThread,
    last: u32,
) -> Result<(), Memory>
    requires counted { length program.now.threads ≡ length log.now.threads }
    requires shown { (world : World) × IsAt program.now log.now world thread.old.core.thread words.old thread.old }
    ensures { OnOk result (Goes program.now log.now last words.old thread.old words.new thread.new) }
{
    if last <= thread.core.steps() {
        return Ok(());
    }
    run_to(program, log, words, thread, last - 1)?;
    take_step(program, log, words, thread)
}

// The step up to which the turn of an event goes: no further than the number of its thread, which stands at this place.
fn cut_off(event: &Event, numbers: &[u32], place: usize) -> u32
    requires { place < length numbers.now }
    ensures { result ≡ min event.now.step (number_of numbers.now place) }
{
    event.step.min(numbers[place])
}

// The threads take the turns of the order, none of which goes beyond the cut.
pub(crate) fn take_turns(
    plan: &Plan,
    order: &[Event],
    words: &mut ReplayWords,
    seats: &mut Vec<RunningThread>,
) -> Result<(), Memory>
    requires counted { length plan.now.program.now.threads ≡ length plan.now.log.now.threads }
    requires numbers { length plan.now.numbers.now ≡ length plan.now.log.now.threads }
    requires shown { CanGoOn plan.now words.old seats.old.items }
    ensures { OnOk result (TakesTurns plan.now order.now words.old seats.old.items words.new seats.new.items) }
{
    for event in order {
        let place = usize::from(event.thread);
        if place < seats.len() {
            let last = cut_off(event, plan.numbers, place);
            go_to(plan.program, plan.log, words, &mut seats[place], last)?;
        }
    }
    Ok(())
}

// Each thread goes to its number in the cut, thread 0 first.
pub(crate) fn go_to_numbers(
    plan: &Plan,
    words: &mut ReplayWords,
    seats: &mut Vec<RunningThread>,
) -> Result<(), Memory>
    requires counted { length plan.now.program.now.threads ≡ length plan.now.log.now.threads }
    requires numbers { length plan.now.numbers.now ≡ length plan.now.log.now.threads }
    requires shown { CanGoOn plan.now words.old seats.old.items }
    ensures { OnOk result (ComesToEnd plan.now words.old seats.old.items words.new seats.new.items) }
{
    for thread in 0..seats.len() {
        let last = plan.numbers[thread];
        go_to(plan.program, plan.log, words, &mut seats[thread], last)?;
    }
    Ok(())
}
