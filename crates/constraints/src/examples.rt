//! Worked examples, each computed: small logs, their constraints, and what the plain search comes to. They also show that
//! the premises of the laws can be met.
ghost use Rattle.constraints.specs.Examples.{OwnWrite, InitialValue, LostUpdate, MessagePassing, ExchangeChain};
ghost use Rattle.constraints.specs.Examples.{NoOrder, StaleRead, NeverOver, OwnSource, TwoDeadEnds};

/// Logs of small programs that everyone knows.
pub fn small_programs()
    ensures own_write { OwnWrite }
    ensures initial_value { InitialValue }
    ensures lost_update { LostUpdate }
    ensures message_passing { MessagePassing }
    ensures exchange_chain { ExchangeChain }
{}

/// Logs that no order respects.
pub fn without_order()
    ensures no_order { NoOrder }
    ensures stale_read { StaleRead }
    ensures never_over { NeverOver }
    ensures own_source { OwnSource }
{}

/// A log at which the plain search meets two dead ends.
pub fn two_dead_ends()
    ensures { TwoDeadEnds }
{}
