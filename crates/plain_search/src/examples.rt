//! Worked examples, each computed: small problems, what the plain search comes to, and how many of their pairs are open.
//! They also show that the premises of the laws can be met.
ghost use Rattle.plain_search.specs.Examples.{TwoDeadEnds, TwoDeadEndsStand, TwoDeadEndsForced, SettledButOpen};
ghost use Rattle.plain_search.specs.Examples.{ThreeExchanges, ForcedBetween, ManyEdges, NotBegun, Impossible, ShortWalks};

/// The search comes to one pair twice before it takes the other side of the first; with what is forced it never does.
pub fn two_dead_ends()
    ensures comes { TwoDeadEnds }
    ensures stands { TwoDeadEndsStand }
    ensures forced { TwoDeadEndsForced }
{}

/// A pair whose greater side is settled may not be passed while the lesser one is open.
pub fn settled_but_open()
    ensures { SettledButOpen }
{}

/// Sides with no edges, with one, and with more.
pub fn small_problems()
    ensures exchanges { ThreeExchanges }
    ensures between { ForcedBetween }
    ensures many { ManyEdges }
{}

/// Problems whose search does not begin.
pub fn not_begun()
    ensures cycle { NotBegun }
    ensures impossible { Impossible }
{}

/// Walks over three numbers.
pub fn short_walks()
    ensures { ShortWalks }
{}
