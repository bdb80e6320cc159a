//! Worked examples: a store that no read saw has its place, and a log that a skip play has is that of no history.
ghost use Rattle.audit_laws.specs.Examples.{BlindStoresPlaced, ForcedBetweenIsOfNoHistory};

/// A store that nobody sees has a place between the others.
pub fn blind_stores()
    ensures { BlindStoresPlaced }
{}

/// A log that the skip play has, although no whole history has it: an unseen write would have to come between a write and its read.
pub fn forced_between()
    ensures { ForcedBetweenIsOfNoHistory }
{}
