ghost use Rattle.tagged_words.specs.Sources.{SourcesStayAway};

/// In the steps of a hand a source of a word never comes back once another was read there. It is so for every list that is
/// a thread's part of some list of steps from the initial cells on, which each call says of its hand.
pub fn source_law()
    ensures { SourcesStayAway }
{}
