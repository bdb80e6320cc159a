// Entries in buckets by word and source. Of each bucket the place of the newest entry is kept, and of each entry that of
// the next older one of its bucket: each as the place plus one, where 0 is none. Before the bucket the entry that was read
// last at the word is looked at: a tag that left its word does not come back there, so it mostly is the one.
ghost use Rattle.std.specs.Prelude.{◌≡◌, true, false, ◌+◌, ◌<◌, ◌≤◌, ◌++◌, ◌∷◌, [], ◌^◌, All, ℕ, List, IfSome, length, vec_len, vec_capacity};
ghost use Rattle.std.specs.List.{list_any};
ghost use Rattle.replay_model.specs.MoreReads.{is_entry_for, with_read};
ghost use Rattle.dep_log.specs.Buckets.{bucket_of, entry_at, AreBuckets, AreOnce, HasPlace, IsPlaceOf};

use light_base::Tag;
use replay_model::Entry;

/// What a half of a number of 64 bits is worth in it.
const HALF: u64 = 1 << 32;

/// Spreads sources over buckets: 2^32 divided by the golden ratio.
const SPREAD: u32 = 2_654_435_769;

// The bucket of a word and a source, of so many, a power of two. Words beside each other with one source, as a thread
// reads them that goes through them, have buckets beside each other, and so heads in one line of the cache.
#[tactic(auto, unfolding(crate::specs::Buckets::bucket_of), using(std::proofs::lemmas::Nat::and_le_r))]
pub(crate) fn bucket_of(count: usize, word: u16, source: Tag) -> usize
    requires some { 0 < count }
    requires few { count < 2 ^ 16 }
    ensures value { result ≡ bucket_of count word source }
    ensures below { result < count }
{
    let hash = u64::from(source.bits().wrapping_mul(SPREAD));
    let start = (hash * count as u64 / HALF) as usize;
    (start + usize::from(word)) & (count - 1)
}

// The place of the entry of a word and a source, which have this bucket. Its newest entry is looked at first.
pub(crate) fn find(
    entries: &[Entry],
    heads: &[u16],
    older: &[u16],
    bucket: usize,
    word: u16,
    source: Tag,
) -> Option<usize>
    requires buckets { AreBuckets entries.now heads.now older.now }
    requires bucket { bucket ≡ bucket_of (length heads.now) word source }
    requires below { bucket < length heads.now }
    ensures { IsPlaceOf entries.now word source result }
{
    let mut at = heads[bucket];
    while at > 0 {
        let place = usize::from(at) - 1;
        let entry = &entries[place];
        if entry.word == word && entry.source.bits() == source.bits() {
            return Some(place);
        }
        at = older[place];
    }
    None
}

// Adds an entry to its bucket.
pub(crate) fn push(
    entries: &mut Vec<Entry>,
    heads: &mut Vec<u16>,
    older: &mut Vec<u16>,
    bucket: usize,
    entry: Entry,
)
    requires buckets { AreBuckets entries.old.items heads.old.items older.old.items }
    requires bucket { bucket ≡ bucket_of (length heads.old.items) entry.word entry.source }
    requires below { bucket < length heads.old.items }
    requires few { length entries.old.items + 1 < 2 ^ 16 }
    requires entry_room { vec_len entries.old < vec_capacity entries.old }
    requires older_room { vec_len older.old < vec_capacity older.old }
    ensures items { entries.new.items ≡ entries.old.items ++ entry ∷ [] }
    ensures buckets { AreBuckets entries.new.items heads.new.items older.new.items }
    ensures entry_room { vec_capacity entries.new ≡ vec_capacity entries.old }
    ensures older_room { vec_capacity older.new ≡ vec_capacity older.old }
{
    older.push_reserved(heads[bucket]);
    entries.push_reserved(entry);
    heads[bucket] = entries.len() as u16;
}

// The place of the entry that was read last at this word, where it is of this source.
pub(crate) fn last_read(entries: &[Entry], latest: &[u16], word: u16, source: Tag) -> Option<usize>
    requires word { word < length latest.now }
    requires within { All (λ at. at ≤ length entries.now) latest.now }
    ensures { IfSome result (λ place. IsPlaceOf entries.now word source (Some place)) }
{
    let at = latest[usize::from(word)];
    if at == 0 {
        return None;
    }
    let place = usize::from(at) - 1;
    let entry = &entries[place];
    if entry.word == word && entry.source.bits() == source.bits() {
        return Some(place);
    }
    None
}

// Has the entry of a word and a source, which stands at this place, end at this step.
pub(crate) fn end_at(entries: &mut Vec<Entry>, place: usize, word: u16, source: Tag, step: u32)
    requires place { IsPlaceOf entries.old.items word source (Some place) }
    requires once { AreOnce entries.old.items }
    ensures items { entries.new.items ≡ with_read word source step entries.old.items }
    ensures buckets { (heads older : List ℕ) → AreBuckets entries.old.items heads older → AreBuckets entries.new.items heads older }
    ensures once { AreOnce entries.new.items }
    ensures length { length entries.new.items ≡ length entries.old.items }
    ensures room { vec_capacity entries.new ≡ vec_capacity entries.old }
{
    entries[place].last = step;
}

// Logs a read of a word that its source had written, where the pair has its entry or there is room for one more. The place
// of its entry.
pub(crate) fn note(
    entries: &mut Vec<Entry>,
    heads: &mut Vec<u16>,
    older: &mut Vec<u16>,
    word: u16,
    source: Tag,
    step: u32,
) -> usize
    requires buckets { AreBuckets entries.old.items heads.old.items older.old.items }
    requires once { AreOnce entries.old.items }
    requires room { list_any (is_entry_for word source) entries.old.items ≡ false → HasPlace entries.old older.old }
    ensures items { entries.new.items ≡ with_read word source step entries.old.items }
    ensures place { result < length entries.new.items }
    ensures longer { length entries.old.items ≤ length entries.new.items }
    ensures buckets { AreBuckets entries.new.items heads.new.items older.new.items }
    ensures once { AreOnce entries.new.items }
    ensures entry_room { vec_capacity entries.new ≡ vec_capacity entries.old }
    ensures older_room { vec_capacity older.new ≡ vec_capacity older.old }
{
    let bucket = bucket_of(heads.len(), word, source);
    match find(entries, heads, older, bucket, word, source) {
        Some(place) => {
            end_at(entries, place, word, source, step);
            place
        }
        None => {
            let entry = Entry {
                word,
                source,
                first: step,
                last: step,
            };
            let place = entries.len();
            push(entries, heads, older, bucket, entry);
            place
        }
    }
}
