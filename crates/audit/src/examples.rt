//! Worked examples, each computed: the constraints of placings, and what the plain search for one comes to.
ghost use Rattle.audit.specs.Examples.{ForcedBetween, BlindStores, ExchangeChain};

/// A write forced between: the search for a placing meets one dead end, and finds none.
pub fn forced_between()
    ensures { ForcedBetween }
{}

/// Of two stores that nobody read nothing is asked.
pub fn blind_stores()
    ensures { BlindStores }
{}

/// Three threads exchange one word in turn.
pub fn exchange_chain()
    ensures { ExchangeChain }
{}
