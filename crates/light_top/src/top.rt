// The top call: all that the program does, over any store and any sink.
ghost use Rattle.std.specs.Prelude.{◌≡◌, IfSome, None, ◌↔◌};
ghost use Rattle.light_base.specs.Causes.{Rose};
ghost use Rattle.light_top.specs.Words.{texts, command_of};
ghost use Rattle.light_top.specs.Statuses.{status_of};
ghost use Rattle.light_top.specs.Outside.{◌and◌};
ghost use Rattle.light_top.specs.Ends.{Ends, Answers, Declines, Completes, Continues, ForCommand};
ghost use Rattle.light_top.specs.Headline.{Records, Replays};

use crate::Status;
use crate::delivery::deliver;
use crate::taking::take_up;
use crate::task::perform;
use crate::words::{Command, read_command};
use history::history_log_law;
use light_base::{Sink, Store};
use recorder::Gate;
use std::alloc::Global;
use std::thread::Threads;

// Takes a command's task up, does it, and delivers what it gives.
#[tactic(auto, using(crate::proofs::Ending::ended_undone))]
fn carry_out<R: Threads + Sync, S: Store, K: Sink, G: Gate>(
    rt: &R,
    alloc: Global,
    store: &mut S,
    out: &mut K,
    gate: &G,
    command: Command<'_>,
) -> Result<(), Status>
    ensures { Ends command.entry (S.told store.old and K.told out.old) (S.told store.new and K.told out.new) (status_of result) }
{
    let task = take_up(alloc, store, command)?;
    let output = perform(rt, alloc, gate, task)?;
    deliver(store, out, &output)
}

// Carries a command out, and says what follows from how it ended.
#[tactic(auto, using(crate::proofs::Ending::not_undone, crate::proofs::Ending::declined))]
fn obey<R: Threads + Sync, S: Store, K: Sink, G: Gate>(
    rt: &R,
    alloc: Global,
    store: &mut S,
    out: &mut K,
    gate: &G,
    command: Command<'_>,
) -> Status
    ensures ends { Ends command.entry (S.told store.old and K.told out.old) (S.told store.new and K.told out.new) result }
    ensures records { Records command.entry (S.told store.old and K.told out.old) (S.told store.new and K.told out.new) result }
    ensures replays { Replays command.entry (S.told store.old and K.told out.old) (S.told store.new and K.told out.new) result }
    ensures answers { Answers command.entry (S.told store.old) result }
    ensures declines { Declines command.entry (S.told store.old) result }
    ensures complete { Completes command.entry (S.told store.old and K.told out.old) (S.told store.new and K.told out.new) result }
{
    history_log_law();
    match carry_out(rt, alloc, store, out, gate, command) {
        Ok(()) => Status::Ok,
        Err(status) => status,
    }
}

/// Does what the words say. Where it runs threads, each of them passes the gate before each of its memory steps.
pub fn light<R: Threads + Sync, S: Store, K: Sink, G: Gate>(
    rt: &R,
    alloc: Global,
    words: &[String],
    store: &mut S,
    out: &mut K,
    gate: &G,
) -> Status
    // Words that are no command do nothing.
    ensures usage { (result ≡ Status.Usage) ↔ (command_of (texts words.now) ≡ None) }
    ensures untouched { result ≡ Status.Usage → (store.new ≡ store.old) × (out.new ≡ out.old) }

    // Each status has its cause, and leaves what it may.
    ensures ends { ForCommand Ends words.now (S.told store.old and K.told out.old) (S.told store.new and K.told out.new) result }
    ensures continues { Continues (S.told store.old and K.told out.old) (S.told store.new and K.told out.new) }

    // Whatever the interleaving, what was recorded is one whole history.
    ensures records { ForCommand Records words.now (S.told store.old and K.told out.old) (S.told store.new and K.told out.new) result }

    // Handed a program and the log of any history of it, a replay prints that history's transcript.
    ensures replays { ForCommand Replays words.now (S.told store.old and K.told out.old) (S.told store.new and K.told out.new) result }

    // What stands in the way is answered, and where nothing does, it is done.
    ensures answers { IfSome (command_of (texts words.now)) (λ command. Answers command (S.told store.old) result) }
    ensures declines { IfSome (command_of (texts words.now)) (λ command. Declines command (S.told store.old) result) }
    ensures complete { ForCommand Completes words.now (S.told store.old and K.told out.old) (S.told store.new and K.told out.new) result }

    // The two faults come from outside.
    ensures store_fault { result ≡ Status.StoreFault → Rose (S.told store.old).faults (S.told store.new).faults }
    ensures sink_fault { result ≡ Status.SinkFault → Rose (K.told out.old).faults (K.told out.new).faults }
{
    match read_command(words) {
        Some(command) => obey(rt, alloc, store, out, gate, command),
        None => Status::Usage,
    }
}
