// What a verdict tells.
ghost use Rattle.replayer.specs.Verdicts.{VerdictsAreExact, HistoriesComeAgain};

use history::history_log_law;

/// Under an order that respects a log the verdict of its replay is exact: all is as logged exactly where some runs of the
/// program fit the log, and then with their reports and with the values that the last tags name. On the log of a history
/// of the program it is that all is as logged, with what this history reported and left.
pub fn replay_law()
    ensures exact { VerdictsAreExact }
    ensures history { HistoriesComeAgain }
{
    history_log_law();
}
