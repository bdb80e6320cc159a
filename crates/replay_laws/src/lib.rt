//! The laws of recording and replaying, over threads as functions of their steps. Each function here does nothing: its
//! contract is the law, which a caller has after the call.
#![tactic(auto)]

pub mod examples;

ghost use Rattle.replay_laws.specs.BridgeLaws.{WordStepsAreAHistory};
ghost use Rattle.replay_laws.specs.HistoryLaws.{RunsFitTheirLog, HistoryShowsItsRuns, HistoryRespectsItsLog, ReplayEndsAsTheHistory, HistoryLogIsWellFormed, TurnsAreAHistory, RoundsAreWhole, FollowIsWhole, HistoriesWithOneLogEndAlike};
ghost use Rattle.replay_laws.specs.EventLaws.{KeptIsDecided, EventsAreDecided};
ghost use Rattle.replay_laws.specs.SkipLaws.{SkipPlayShowsTheRuns, FittingRunsAreUnique, SkippedRunsFit, VerdictIsExact, VerdictIsTheSame};
ghost use Rattle.replay_laws.specs.StepLaws.{OneMoreRead, OneMoreWrite, OneMoreStep, OneMoreOfItsThread, TagNamesOneCell, TagsAreOfSteps};

/// Steps at the words, whose parts are runs of the threads to their ends, are a whole history with these very steps.
pub fn bridge_law()
    ensures { WordStepsAreAHistory }
{}

/// What one more step does to the log of its thread.
pub fn read_law()
    ensures read { OneMoreRead }
    ensures write { OneMoreWrite }
{}

/// What one more step does to a list of steps at the words.
pub fn word_step_law()
    ensures folds { OneMoreStep }
    ensures part { OneMoreOfItsThread }
{}

/// Where runs fit a log and an order respects it, the skip play gives these runs, each word's last tag, and the value
/// that this tag names.
pub fn skip_law()
    ensures shows { SkipPlayShowsTheRuns }
    ensures unique { FittingRunsAreUnique }
{}

/// Under an order that respects a log, the state after the skip play has the log exactly where some runs fit it.
pub fn verdict_law()
    ensures fits { SkippedRunsFit }
    ensures exact { VerdictIsExact }
    ensures same { VerdictIsTheSame }
{}

/// The runs of a whole history fit its log; each word ends with the value that its last tag names; the events of the log,
/// in the history's order, respect it; and a replay of the log by any order that respects it ends as the history did.
pub fn history_law()
    ensures fits { RunsFitTheirLog }
    ensures shows { HistoryShowsItsRuns }
    ensures respects { HistoryRespectsItsLog }
    ensures replayed { ReplayEndsAsTheHistory }
    ensures alike { HistoriesWithOneLogEndAlike }
{}

/// The log of a whole history is well formed, where the threads keep to the limits.
pub fn log_law()
    ensures { HistoryLogIsWellFormed }
{}

/// Turns, with the threads that have ended passed over, are a legal history; with rounds of turns after them, a whole one.
pub fn turns_law()
    ensures turns { TurnsAreAHistory }
    ensures rounds { RoundsAreWhole }
    ensures follow { FollowIsWhole }
{}

/// In a list of steps at the words a tag names one cell, and one step that its thread took.
pub fn tag_law()
    ensures cell { TagNamesOneCell }
    ensures step { TagsAreOfSteps }
{}

/// The tests on events of a log decide.
pub fn event_law()
    ensures kept { KeptIsDecided }
    ensures event { EventsAreDecided }
{}
