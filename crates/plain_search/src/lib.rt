//! The plain search for a choice of one side of each of a list of pairs, and its laws. A pair's sides are lists of edges
//! between numbers; a choice does where its edges close no cycle with those of the problem. A solver, whatever its method,
//! is measured by this search. Each function here does nothing: its contract is the law, which a caller has after the call.
#![tactic(auto)]

pub mod examples;
pub mod openness;

ghost use Rattle.plain_search.specs.EdgeLaws.{ReachingIsByWalks, AcyclicHasNoLoop, AcyclicIsRanked, WalksAreByRankings, OneMoreEdge, OneMoreCycle, OneEnd};
ghost use Rattle.plain_search.specs.SearchLaws.{FoundIsAChoice, FoundIsSolved, NoneIsUnsolved, DeadEndsAreFew, NoneMeetsDeadEnd};
ghost use Rattle.plain_search.specs.ForcingLaws.{ForcingLosesNothing, AlikeSearchesAlike, ShutForcesTheOther, SettledIsPassed};
ghost use Rattle.plain_search.specs.StandingLaws.{Ends, Turns, Forces};

/// An edge says that one node is to stand before another.
#[derive(Clone, Copy)]
pub struct Edge {
    pub from: u32,
    pub to: u32,
}

/// What the tests on edges mean: a walk leads there, no walk leads back, all edges hold under some ranking.
pub fn edge_law()
    ensures walks { ReachingIsByWalks }
    ensures loops { AcyclicHasNoLoop }
    ensures ranked { AcyclicIsRanked }
    ensures rankings { WalksAreByRankings }
    ensures edge { OneMoreEdge }
    ensures cycle { OneMoreCycle }
    ensures side { OneEnd }
{}

/// The plain search finds a full choice exactly where there is one, and meets at most 2 to the number of open pairs dead
/// ends, up to the first full choice or over all.
pub fn search_law()
    ensures choice { FoundIsAChoice }
    ensures solved { FoundIsSolved }
    ensures none { NoneIsUnsolved }
    ensures few { DeadEndsAreFew }
    ensures some { NoneMeetsDeadEnd }
{}

/// Edges that every solution holds may be added before their turn, and a pair that is settled may be passed: as much is
/// found, and no more dead ends are met.
pub fn forcing_law()
    ensures forced { ForcingLosesNothing }
    ensures alike { AlikeSearchesAlike }
    ensures shut { ShutForcesTheOther }
    ensures settled { SettledIsPassed }
{}

/// The rules of every solver: as long as it keeps to them, it finds what the plain search finds, and has met no more dead
/// ends than that search meets.
pub fn standing_law()
    ensures ends { Ends }
    ensures turns { Turns }
    ensures forces { Forces }
{}
