// Entries and last tags by the places of their events.
ghost use Rattle.std.specs.Prelude.{◌≡◌, ℕ, ◌+◌, ◌^◌, ◌<◌, ◌↔◌, IsTrue, All, IfOk, IfSome, MatchOption, map, length};
ghost use Rattle.schedule_check.specs.Ranks.{rank_in, range_in, IsTimely, HasPlaces, AreTimely, IsFirstUntimely};

use constraints::Placed;
use light_base::Memory;
use order_judge::LiveRange;
use std::alloc::Global;

// How far down an order a tag stands, by the position of its event: 0 for the initial contents, which stand before all events,
// else one more than the event's place.
fn rank(places: &[u32], position: Option<u32>) -> u32
    requires small { All (λ place. place + 1 < 2 ^ 32) places.now }
    requires within { IfSome position (λ p. p < length places.now) }
    ensures { result ≡ rank_in places.now position }
{
    match position {
        None => 0,
        Some(position) => places[position as usize] + 1,
    }
}

// The live range that an entry tells of.
fn range_of(places: &[u32], entry: &Placed) -> LiveRange
    requires small { All (λ place. place + 1 < 2 ^ 32) places.now }
    requires within { HasPlaces places.now entry.now }
    ensures { result ≡ range_in places.now entry.now }
{
    LiveRange {
        word: u32::from(entry.word),
        from: rank(places, entry.source),
        to: rank(places, Some(entry.last)),
    }
}

// The live ranges that the entries tell of.
pub(crate) fn ranges_of(
    alloc: Global,
    places: &[u32],
    entries: &[Placed],
) -> Result<Vec<LiveRange>, Memory>
    requires small { All (λ place. place + 1 < 2 ^ 32) places.now }
    requires within { All (HasPlaces places.now) entries.now }
    ensures { IfOk result (λ ranges. ranges.items ≡ map (range_in places.now) entries.now) }
{
    let mut ranges = Vec::with_capacity(alloc, entries.len())?;
    for entry in entries {
        ranges.push(range_of(places, entry))?;
    }
    Ok(ranges)
}

// How far down the order the last tags stand.
pub(crate) fn ends_of(
    alloc: Global,
    places: &[u32],
    last_tags: &[Option<u32>],
) -> Result<Vec<u32>, Memory>
    requires small { All (λ place. place + 1 < 2 ^ 32) places.now }
    requires within { All (λ final. IfSome final (λ p. p < length places.now)) last_tags.now }
    ensures { IfOk result (λ ends. ends.items ≡ map (rank_in places.now) last_tags.now) }
{
    let mut ends = Vec::with_capacity(alloc, last_tags.len())?;
    for last in last_tags {
        ends.push(rank(places, *last))?;
    }
    Ok(ends)
}

// Whether the entry's source stands before its first.
fn is_timely(places: &[u32], entry: &Placed) -> bool
    requires small { All (λ place. place + 1 < 2 ^ 32) places.now }
    requires within { HasPlaces places.now entry.now }
    ensures { IsTrue result ↔ IsTimely places.now entry.now }
{
    rank(places, entry.source) < rank(places, Some(entry.first))
}

// The first entry whose source does not stand before its first.
pub(crate) fn first_untimely(places: &[u32], entries: &[Placed]) -> Option<u32>
    requires small { All (λ place. place + 1 < 2 ^ 32) places.now }
    requires within { All (HasPlaces places.now) entries.now }
    requires few { length entries.now < 2 ^ 32 }
    ensures { MatchOption result (AreTimely places.now entries.now (length entries.now)) (λ i. IsFirstUntimely places.now entries.now i) }
{
    for (i, entry) in entries.iter().enumerate() {
        if !is_timely(places, entry) {
            return Some(i as u32);
        }
    }
    None
}
