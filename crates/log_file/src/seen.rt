// The entries of a thread while they are read, with what is asked of them.
ghost use Rattle.std.specs.Prelude.{◌≡◌, [], ◌∷◌, ◌++◌, ◌^◌, ◌<◌, nat_lt, length, IfOk, OnOk};
ghost use Rattle.std.specs.List.{list_any};
ghost use Rattle.replay_model.specs.MoreReads.{is_entry_for};
ghost use Rattle.log_file.specs.LogReading.{newest_first, ends_late};
ghost use Rattle.log_file.specs.Seen.{IsNumbered, IsKept, pair_of};

use crate::number_set::NumberSet;
use light_base::Tag;
use replay_model::Entry;
use std::alloc::{AllocError, Global};

/// What a half of a number of 64 bits is worth in it.
const HALF: u64 = 1 << 32;

/// The entries of a thread so far.
#[derive(Drop)]
pub(crate) struct Seen {
    pub entries: Vec<Entry>,
    // The word and the source of each entry, as one number. Those of a word and a writer stand in one row, and rise in the log
    // of a run.
    pairs: NumberSet,
    // The greatest last of the entries of each word.
    ends: Vec<u32>,
}

// A word and a tag as one number.
#[tactic(auto, unfolding(crate::specs::Seen::pair_of))]
fn pair_of(word: u16, source: Tag) -> u64
    ensures value { result ≡ pair_of word source }
    ensures small { result < 2 ^ 48 }
    ensures numbered { IsNumbered source }
{
    u64::from(word) * HALF + u64::from(source.bits())
}

impl Seen {
    // No entry yet, of a log with so many words; there is room for so many entries.
    pub(crate) fn new(alloc: Global, words: usize, room: usize) -> Result<Seen, AllocError>
        ensures kept { IfOk result IsKept }
        ensures entries { IfOk result (λ seen. seen.entries.items ≡ []) }
        ensures words { IfOk result (λ seen. length seen.ends.items ≡ words) }
    {
        let entries = Vec::with_capacity(alloc, room)?;
        let pairs = NumberSet::new(alloc, words.saturating_mul(16), room)?;
        let ends = vec![in alloc; 0; words]?;
        Ok(Seen {
            entries,
            pairs,
            ends,
        })
    }

    // The first step of the newest entry, and 0 where there is none.
    pub(crate) fn newest_first(&self) -> u32
        ensures { result ≡ newest_first self.now.entries.items }
    {
        match self.entries.last() {
            Some(entry) => entry.first,
            None => 0,
        }
    }

    // Whether there is a word with this number.
    pub(crate) fn has_word(&self, word: u16) -> bool
        ensures { result ≡ nat_lt word (length self.now.ends.items) }
    {
        usize::from(word) < self.ends.len()
    }

    // Whether there is an entry of this word and source.
    pub(crate) fn has_entry(&self, word: u16, source: Tag) -> bool
        requires { IsKept self.now }
        ensures { result ≡ list_any (is_entry_for word source) self.now.entries.items }
    {
        self.pairs.contains(pair_of(word, source))
    }

    // Whether an entry of this word ends no earlier than at this step.
    pub(crate) fn ends_late(&self, word: u16, step: u32) -> bool
        requires kept { IsKept self.now }
        requires some { 0 < step }
        requires there { word < length self.now.ends.items }
        ensures { result ≡ list_any (ends_late word step) self.now.entries.items }
    {
        step <= self.ends[usize::from(word)]
    }

    // Adds an entry.
    pub(crate) fn push(&mut self, entry: Entry) -> Result<(), AllocError>
        requires kept { IsKept self.old }
        requires there { entry.word < length self.old.ends.items }
        ensures kept { OnOk result (IsKept self.new) }
        ensures entries { OnOk result (self.new.entries.items ≡ self.old.entries.items ++ entry ∷ []) }
        ensures words { OnOk result (length self.new.ends.items ≡ length self.old.ends.items) }
    {
        self.pairs.push(pair_of(entry.word, entry.source))?;
        let word = usize::from(entry.word);
        self.ends[word] = self.ends[word].max(entry.last);
        self.entries.push(entry)?;
        Ok(())
    }
}
