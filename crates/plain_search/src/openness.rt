//! What is said of pairs by the edges of a problem alone.
ghost use Rattle.plain_search.specs.Openness.{NotOpenIsDecided, OneOfThree, CyclicIsStuck, SolvedIsNotStuck};

/// A pair that isn't open is decided the same way in each solution. Each pair is open, forced or stuck; where the edges have a
/// cycle every pair is stuck, and where there is a solution none is.
pub fn openness_law()
    ensures decided { NotOpenIsDecided }
    ensures counted { OneOfThree }
    ensures cyclic { CyclicIsStuck }
    ensures solved { SolvedIsNotStuck }
{}
