//! What the constraints of a log have to do with the orders that respect it. Each function here does nothing: its contract is
//! the law, which a caller has after the call.
ghost use Rattle.constraints.specs.Laws.{RespectsIsSolving, RankingsAreOrders, SearchFindsOrders, LinesAreOrders};
ghost use Rattle.constraints.specs.Laws.{EventsAreListed, SourcesRise, EdgesAreWithin, SidesExclude, SourcesAreRead, LogsAreSmall, SourcesAreGrouped};

/// An order respects the log exactly where the base edges and one side of each rival pair hold in it; some order respects the
/// log exactly where some ranking solves its problem, that is, where the plain search finds a choice; and positions in a row, in
/// which edges hold that ask for all of that, are such an order.
pub fn order_law()
    ensures solving { RespectsIsSolving }
    ensures rankings { RankingsAreOrders }
    ensures search { SearchFindsOrders }
    ensures lines { LinesAreOrders }
{}

/// The list of events and the positions in it, which sources and last reads rise, and between which positions edges are.
pub fn position_law()
    ensures listed { EventsAreListed }
    ensures rise { SourcesRise }
    ensures within { EdgesAreWithin }
{}

/// Both sides of a rival pair never hold: where the one does, its source ranks below the other one. And a source ranks below
/// each of its last reads.
pub fn side_law()
    ensures exclude { SidesExclude }
    ensures read { SourcesAreRead }
{}

/// How many events and sources there are, and the groups of a word's sources, one for each thread.
pub fn size_law()
    ensures small { LogsAreSmall }
    ensures groups { SourcesAreGrouped }
{}
