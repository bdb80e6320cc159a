//! What it means that a pair of sources isn't open. Each function here does nothing: its contract is the law, which a caller has
//! after the call.
ghost use Rattle.races.specs.Laws.{NotOpenIsDecided, RespectedIsNotStuck};

/// Where an order respects a log and a pair isn't open, every order that respects the log has all edges of the same one side of
/// that pair, and none has all edges of the other. And then no pair is stuck.
pub fn decided_law()
    ensures decided { NotOpenIsDecided }
    ensures stuck { RespectedIsNotStuck }
{
    constraints::laws::order_law();
    plain_search::openness::openness_law();
}
