//! How a thread stands right after a memory step. The function here does nothing: its contract is the law, which a caller has
//! after the call.
ghost use Rattle.stopper.specs.Stops.{StopsStepByStep, StopsSettle, StopsAsItRan};

/// The state right after one more step is taken from the settled state before it, and settles to the state that wants the next
/// one; where runs fit a log and an order respects it, the play up to the cut of a step leaves its thread right after this step of
/// its run.
pub fn stop_law()
    ensures step { StopsStepByStep }
    ensures settle { StopsSettle }
    ensures ran { StopsAsItRan }
{}
