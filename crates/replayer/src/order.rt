// A replay by a whole order.
ghost use Rattle.std.specs.Prelude.{◌≡◌, IfOk, OnOk, [], length};
ghost use Rattle.replay_model.specs.Orders.{Respects};
ghost use Rattle.replayer.specs.Notes.{AreWrites};
ghost use Rattle.replayer.specs.Replays.{replay_by, IsBy};
ghost use Rattle.replayer.specs.Verdicts.{IsVerdict, IsExact, IsAnyHistoryAgain};

use crate::laws::replay_law;
use crate::notes::Written;
use crate::replay::{Replay, Replayed};
use dep_log::RunLog;
use light_base::{Event, Memory};
use machine::Program;
use std::alloc::Global;

// Gives the threads of a replay before any turn the turns of an order. An event of a thread that the program does not have does
// nothing.
fn take_turns(program: &Program, replay: &mut Replay, order: &[Event]) -> Result<(), Memory>
    requires program { replay.old.program ≡ program.now }
    requires begins { replay.old.turns ≡ [] }
    ensures { OnOk result (IsBy program.now replay.old.log order.now replay.new) }
{
    let threads = program.threads_count();
    for event in order {
        if usize::from(event.thread) < threads {
            replay.turn(*event)?;
        }
    }
    Ok(())
}

/// Replays a program by a log of as many threads and words: the threads take the turns of the order, and then run to
/// their ends. An event of a thread that the program does not have does nothing.
pub fn replay_order(
    alloc: Global,
    program: &Program,
    log: &RunLog,
    order: &[Event],
) -> Result<Replayed, Memory>
    requires threads { length program.now.threads ≡ length log.now.threads }
    requires words { length program.now.words ≡ length log.now.last_tags }
    ensures verdict { IfOk result (IsVerdict program.now log.now (replay_by program.now log.now order.now)) }
    // For an order that respects the log: whether some runs fit the log, and what these report and leave.
    ensures exact { IfOk result (λ replayed. Respects log.now order.now → IsExact program.now log.now replayed) }
    // For the log of a history too: what this very history reported and left.
    ensures history { IfOk result (λ replayed. Respects log.now order.now → IsAnyHistoryAgain program.now log.now replayed) }
{
    replay_law();
    let mut replay = Replay::new(alloc, program, log)?;
    take_turns(program, &mut replay, order)?;
    replay.finish()
}

/// The same with all writes that the threads made, of each the step and the word. Memory for these is wanted too.
pub fn replay_noting(
    alloc: Global,
    program: &Program,
    log: &RunLog,
    order: &[Event],
) -> Result<(Replayed, Vec<Written>), Memory>
    requires threads { length program.now.threads ≡ length log.now.threads }
    requires words { length program.now.words ≡ length log.now.last_tags }
    ensures verdict { IfOk result (λ noted. IsVerdict program.now log.now (replay_by program.now log.now order.now) noted.0) }
    ensures exact { IfOk result (λ noted. Respects log.now order.now → IsExact program.now log.now noted.0) }
    ensures writes { IfOk result (λ noted. AreWrites (replay_by program.now log.now order.now).threads noted.1.items) }
{
    replay_law();
    let mut replay = Replay::noting(alloc, program, log)?;
    take_turns(program, &mut replay, order)?;
    replay.finish_noted()
}
