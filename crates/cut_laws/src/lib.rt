//! The laws of replays that stop at a step, over threads as functions of their steps: how far each thread has to go, and that
//! the play which goes so far shows their runs. Each function here does nothing: its contract is the law, which a caller
//! has after the call.
#![tactic(auto)]

pub mod examples;

ghost use Rattle.cut_laws.specs.CutLaws.{LoggedStepsAreClosed, CutStaysInTheLog, CutIsUnique, CutEndsAtItsStep, ReadsStayWithin};
ghost use Rattle.cut_laws.specs.SearchLaws.{SearchBegins, SearchGoesOn, SearchEndsAtTheCut};
ghost use Rattle.cut_laws.specs.PlayLaws.{CutPlayShowsTheRuns, CutPlayIsOnTrack, CutPlayComesToItsStep, HistoriesStopAtTheirSteps};

/// The steps that a well-formed log has are closed, so no cut goes beyond them; a step has one cut; where some order respects the
/// log, the thread asked for goes no further than its step; and no read within a closed list saw a write beyond it.
pub fn cut_law()
    ensures closed { LoggedStepsAreClosed }
    ensures stays { CutStaysInTheLog }
    ensures unique { CutIsUnique }
    ensures own { CutEndsAtItsStep }
    ensures within { ReadsStayWithin }
{}

/// The cut of a step of a well-formed log is found by going through the entries of each thread as far as they have begun.
pub fn search_law()
    ensures begins { SearchBegins }
    ensures goes_on { SearchGoesOn }
    ensures ends { SearchEndsAtTheCut }
{}

/// Where runs fit a log and an order respects it, the play up to a cut gives each thread the steps of its run up to its number,
/// and has seen what the log says, and the thread asked for stands right after its step. So it is for the log of every whole
/// history.
pub fn cut_play_law()
    ensures shows { CutPlayShowsTheRuns }
    ensures on_track { CutPlayIsOnTrack }
    ensures comes { CutPlayComesToItsStep }
    ensures history { HistoriesStopAtTheirSteps }
{}
