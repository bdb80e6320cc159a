//! The laws of audits, over threads as functions of their steps: which logs are those of histories, with each write in its place,
//! also the writes that no read saw. Each function here does nothing: its contract is the law, which a caller has after the call.
#![tactic(auto)]

pub mod examples;

ghost use Rattle.audit_laws.specs.PlacingLaws.{HistoriesPlaceTheirWrites, PlacingsAreHistories, LegalLogsHavePlacings, PlacingsAreByPairs};
ghost use Rattle.audit_laws.specs.AuditLaws.{LegalLogsAreRespected, LegalLogsAreJudged};
ghost use Rattle.audit_laws.specs.IdlePairs.{IdlePairsChangeNothing};

/// The events of a log and the writes of its runs, in the order of a whole history that has the log, are a placing; the turns of
/// a placing are such a history; so a log that runs fit is that of a whole history exactly where there is a placing.
pub fn placing_law()
    ensures places { HistoriesPlaceTheirWrites }
    ensures history { PlacingsAreHistories }
    ensures legal { LegalLogsHavePlacings }
{}

/// Placings are the orders in which, of each two writes to a word one of which was read, one comes first with all its reads.
pub fn pair_law()
    ensures { PlacingsAreByPairs }
{}

/// Some order respects the log of a whole history. And under an order that respects a log, some whole history has the log exactly
/// where the state after the skip play has it and the runs of this state have a placing.
pub fn audit_law()
    ensures respected { LegalLogsAreRespected }
    ensures judged { LegalLogsAreJudged }
{}

/// The plain search comes to the same without the pairs that ask for nothing.
pub fn idle_law()
    ensures { IdlePairsChangeNothing }
{}
