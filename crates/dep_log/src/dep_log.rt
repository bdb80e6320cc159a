// The log of one thread while it grows.
ghost use Rattle.std.specs.Prelude.{◌≡◌, ◌<◌, ◌≤◌, nat_le, All, IfOk, length};
ghost use Rattle.replay_model.specs.Bounds.{most_entries, most_inputs};
ghost use Rattle.replay_model.specs.MoreReads.{with_read};
ghost use Rattle.dep_log.specs.DepLogs.{no_entries, HasRoom, LogsRead};

use crate::ThreadLog;
use crate::buckets::{end_at, last_read, note};
use light_base::{Memory, Tag};
use replay_model::{End, Entry};
use std::alloc::Global;
use std::marker::Model;

/// The log of one thread while the thread runs: one entry for each pair of word and source that its reads saw. After `new`
/// no call takes memory.
///
/// It is seen as the number of words, the greatest number of entries, the number of entries for which it has memory, and
/// the entries.
#[derive(Debug, Drop)]
pub struct DepLog {
    words: u16,
    limit: u32,
    entries: Vec<Entry>,
    // Of each word the place, plus one, of the entry that was read last there; 0 is none.
    latest: Vec<u16>,
    heads: Vec<u16>,
    older: Vec<u16>,
}

impl Model for DepLog {
    ghost use Rattle.std.specs.Prelude.{vec_capacity};
    ghost use Rattle.dep_log.specs.DepLogs.{DepLogState};

    ghost Value = { DepLogState };

    ghost use Rattle.dep_log.specs.Buckets.{AreKept, AreWithin, HaveRoom};

    ghost view = { λ l. record { words = l.words; limit = l.limit; room = vec_capacity l.entries; entries = l.entries.items } };

    ghost invariant = { λ l. AreKept l.limit l.entries.items l.heads.items l.older.items ×
        AreWithin l.words l.entries.items l.latest.items × HaveRoom l.limit l.entries l.older };
}

impl DepLog {
    /// A log without entries of a thread with so many words, 1 to 4,096, which may have so many entries, at most 16,384, and
    /// has memory for so many.
    pub fn new(alloc: Global, words: u16, limit: u32) -> Result<DepLog, Memory>
        requires some_word { 1 ≤ words }
        requires words { words ≤ 4096 }
        requires limit { limit ≤ most_entries }
        ensures { IfOk result (λ log. log ≡ no_entries words limit) }
    {
        let room = limit as usize;
        let entries: Vec<Entry> = Vec::with_capacity(alloc, room)?;
        let latest: Vec<u16> = vec![in alloc; 0; usize::from(words)]?;
        let heads: Vec<u16> = vec![in alloc; 0; room.max(1).next_power_of_two()]?;
        let older: Vec<u16> = Vec::with_capacity(alloc, room)?;
        Ok(DepLog {
            words,
            limit,
            entries,
            latest,
            heads,
            older,
        })
    }

    /// Whether there are as many entries as there may be.
    pub fn is_full(&self) -> bool
        ensures { result ≡ nat_le self.now.limit (length self.now.entries) }
    {
        self.entries.len() >= self.limit as usize
    }

    /// The entries so far, by rising first.
    pub fn entries(&self) -> &[Entry]
        ensures { result.now ≡ self.now.entries }
    {
        &self.entries
    }

    /// A step of the thread, later than those before, read this word as `source` had written it: the pair's entry now
    /// ends at this step, or the pair has a new entry at the end. The memory stays what it was.
    #[tactic(auto, using(crate::proofs::Noted::logs_read))]
    pub fn saw(&mut self, word: u16, source: Tag, step: u32)
        requires word { word < self.old.words }
        requires first { 0 < step }
        requires later { All (λ entry. entry.last < step) self.old.entries }
        requires room { HasRoom self.old word source }
        ensures entries { self.new ≡ record self.old { entries = with_read word source step self.old.entries } }
        // Where the entries were the log of some accesses, they are their log with this read added.
        ensures logs { LogsRead word source step self.old.entries self.new.entries }
    {
        if let Some(place) = last_read(&self.entries, &self.latest, word, source) {
            end_at(&mut self.entries, place, word, source, step);
            return;
        }
        let place = note(
            &mut self.entries,
            &mut self.heads,
            &mut self.older,
            word,
            source,
            step,
        );
        self.latest[usize::from(word)] = place as u16 + 1;
    }

    /// The log of the thread, which took so many memory steps, finished so many instructions, ended so, and took these
    /// input numbers, of which there are at most 65,536.
    pub fn finish(self, steps: u32, instr: u32, end: End, taken: Vec<u32>) -> ThreadLog
        requires steps { All (λ entry. entry.last ≤ steps) self.entries }
        requires taken { length taken.items ≤ most_inputs }
        ensures { result ≡ record { entries = self.entries; steps = steps; instr = instr; end = end; taken = taken.items } }
    {
        ThreadLog::new(self.entries, steps, instr, end, taken)
    }
}
