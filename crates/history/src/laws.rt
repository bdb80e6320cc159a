// What holds of the histories of every program.
ghost use Rattle.history.specs.Histories.{RoundsAreWhole, FollowsAreWhole};
ghost use Rattle.history.specs.HistoryLogs.{HistoryLogsAreWellFormed, HistoryRunsFit, HistoryEventsRespect, ReplaysEndAsHistories, ProgramRunsAreUnique};

use machine::{input_law, machine_law};
use replay_laws::{log_law, skip_law};

/// Turns in rounds make a legal and whole history of every program, and so does an order of turns that is followed by
/// rounds.
pub fn history_law()
    ensures rounds { RoundsAreWhole }
    ensures follow { FollowsAreWhole }
{}

/// The log of a history of a program is well formed, its runs fit it, and its events in the history's order respect it;
/// a replay by any order that respects it ends as the history did; and the runs that fit a log are unique where some
/// order respects it.
pub fn history_log_law()
    ensures well_formed { HistoryLogsAreWellFormed }
    ensures fits { HistoryRunsFit }
    ensures respects { HistoryEventsRespect }
    ensures replays { ReplaysEndAsHistories }
    ensures unique { ProgramRunsAreUnique }
{
    machine_law();
    input_law();
    replay_laws::history_law();
    log_law();
    skip_law();
}
