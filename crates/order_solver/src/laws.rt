//! What the budget of a solver is worth. Each function here does nothing: its contract is the law, which a caller has after
//! the call.
ghost use Rattle.order_solver.specs.Solving.{DeadEndsAreFew};

/// The plain search of a log meets at most 2 to the number of open pairs dead ends. So a budget as large as that is never
/// spent.
pub fn budget_law()
    ensures { DeadEndsAreFew }
{
    plain_search::search_law();
}
