//! Worked examples, each computed: orders of small logs, and what is to be said of them.
ghost use Rattle.schedule_check.specs.Examples.{OwnWrite, InitialValue, MessagePassing, ExchangeChain, StaleRead, NeverOver};

/// Orders that respect a log, and orders of each kind of fault.
pub fn small_orders()
    ensures own_write { OwnWrite }
    ensures initial_value { InitialValue }
    ensures message_passing { MessagePassing }
    ensures exchange_chain { ExchangeChain }
    ensures stale_read { StaleRead }
    ensures never_over { NeverOver }
{}
