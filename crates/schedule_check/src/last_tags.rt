// Which live ranges go on after their words' last tags.
ghost use Rattle.std.specs.Prelude.{◌≡◌, ℕ, ◌^◌, ◌<◌, ◌↔◌, IsTrue, All, MatchOption, length};
ghost use Rattle.order_judge.specs.declared.live_ranges.LiveRange.{LiveRange};
ghost use Rattle.schedule_check.specs.Ranks.{IsTooLong, IsFirstTooLong, NoneIsTooLong, IsLesser};

use order_judge::LiveRange;

// Whether the live range does not begin where its word's last tag stands, and ends after that.
fn is_too_long(range: &LiveRange, ends: &[u32]) -> bool
    requires { range.now.word < length ends.now }
    ensures { IsTrue result ↔ IsTooLong ends.now range.now }
{
    let end = ends[range.word as usize];
    range.from != end && end < range.to
}

// Whether the word is less than that of what was found so far, if anything was.
fn is_lesser(word: u32, found: Option<(u32, u32)>) -> bool
    ensures { IsTrue result ↔ IsLesser word found }
{
    match found {
        None => true,
        Some((other, _)) => word < other,
    }
}

// The least word with a live range that is too long, and the first such one of it.
pub(crate) fn first_too_long(ranges: &[LiveRange], ends: &[u32]) -> Option<(u32, u32)>
    requires words { All (λ (range : LiveRange). range.word < length ends.now) ranges.now }
    requires few { length ranges.now < 2 ^ 32 }
    ensures { MatchOption result (NoneIsTooLong ranges.now ends.now (length ranges.now))
        (λ p. IsFirstTooLong ranges.now ends.now (length ranges.now) p.0 p.1) }
{
    let mut found: Option<(u32, u32)> = None;
    for (i, range) in ranges.iter().enumerate() {
        if is_too_long(range, ends) && is_lesser(range.word, found) {
            found = Some((range.word, i as u32));
        }
    }
    found
}
