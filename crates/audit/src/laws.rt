//! What tells whether a log is legal. Each function here does nothing: its contract is the law, which a caller has after the call.
ghost use Rattle.audit.specs.PlacingLaws.{PlacesIsSolving, LinesArePlacings, IdlePairsMayStay, WritesAreRead, SidesExclude};
ghost use Rattle.audit.specs.Rivalries.{PlacingsAreSearched, WritesAreRivals};
ghost use Rattle.audit.specs.LegalLaws.{LegalHasOrder, LegalHasRuns, LegalHasPlacing, PlacingIsLegal};

/// An order is a placing exactly where it has each step once, the base edges hold in it and one side of each pair; and positions
/// in a row, in which edges hold that ask for all of that, are such an order. A pair that asks for nothing for each two writes
/// that nobody read changes nothing.
pub fn constraint_law()
    ensures solving { PlacesIsSolving }
    ensures lines { LinesArePlacings }
    ensures idle { IdlePairsMayStay }
{}

/// Where the base edges hold, a write ranks below each of its last reads, or is it itself; and both sides of a pair never hold.
pub fn side_law()
    ensures read { WritesAreRead }
    ensures exclude { SidesExclude }
{}

/// The problem of a placing is one that `order_solver` searches, where runs fit the log and fewer than 2^32 steps have a place.
pub fn rivalry_law()
    ensures problem { PlacingsAreSearched }
    ensures rivals { WritesAreRivals }
{}

/// A log is not legal for a program where no order respects it, where no runs fit it, or where such runs have no placing; and
/// the turns of a placing are a history that has it. So it is legal exactly where none of the three is so.
pub fn legal_law()
    ensures order { LegalHasOrder }
    ensures runs { LegalHasRuns }
    ensures placing { LegalHasPlacing }
    ensures history { PlacingIsLegal }
{
    machine::machine_law();
    machine::input_law();
}
