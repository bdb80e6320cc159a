//! What a verdict depends on. The function here does nothing: its contract is the law, which a caller has after the call.
ghost use Rattle.batch.specs.Laws.{VerdictsAreOne};

use history::history_log_law;

/// Where the plain search of the log has no more dead ends than the budget, the verdict depends on the bytes alone.
pub fn verdict_law()
    ensures { VerdictsAreOne }
{
    history_log_law();
}
