// Which events were the last to read which source of which word.
ghost use Rattle.std.specs.Prelude.{◌≡◌, length, map, nat_le, IfOk};
ghost use Rattle.std.specs.List.{count_by, filter_map};
ghost use Rattle.replay_model.specs.Logs.{Log};
ghost use Rattle.replay_model.specs.WellFormed.{IsWellFormed};
ghost use Rattle.constraints.specs.Building.{read_of, key_of, placed_entries, AreInOrder, AreReadsInOrder, AreReads, AreKeys, is_read_up_to, source_rows, last_rows};

use crate::placed::Placed;
use crate::rows::Rows;
use light_base::Memory;
use std::alloc::Global;

/// The last read of one source of a word by one thread: both by their positions.
#[derive(Clone, Copy, PartialEq, Eq, PartialOrd, Ord)]
pub struct Read {
    pub word: u16,
    pub source: u32,
    pub last: u32,
}

/// A source of a word, by its position.
#[derive(Clone, Copy, PartialEq, Eq, PartialOrd, Ord)]
pub struct Key {
    pub word: u16,
    pub source: u32,
}

impl Read {
    fn key(&self) -> Key
        ensures { result ≡ key_of self.now }
    {
        Key {
            word: self.word,
            source: self.source,
        }
    }
}

impl Placed {
    // What the entry reads, where its source is not initial.
    fn read(&self) -> Option<Read>
        ensures { result ≡ read_of self.now }
    {
        match self.source {
            Some(source) => Some(Read {
                word: self.word,
                source,
                last: self.last,
            }),
            None => None,
        }
    }
}

// The reads of sources that are not initial.
fn reads_of(alloc: Global, placed: &[Placed]) -> Result<Vec<Read>, Memory>
    ensures { IfOk result (λ reads. reads.items ≡ filter_map read_of placed.now) }
{
    let reads = placed
        .iter()
        .filter_map(|placed| placed.read())
        .collect(alloc)?;
    Ok(reads)
}

/// The reads of sources that are not initial, by word, source and last, each once.
pub fn sorted_reads(alloc: Global, placed: &[Placed]) -> Result<Vec<Read>, Memory>
    ensures order { IfOk result (λ reads. AreReadsInOrder reads.items) }
    ensures reads { (log : Log) → IsWellFormed log → placed.now ≡ placed_entries log → IfOk result (λ reads. AreReads log reads.items) }
{
    let mut reads = reads_of(alloc, placed)?;
    reads.sort_unstable();
    reads.dedup();
    Ok(reads)
}

// The source of each key.
fn sources(alloc: Global, keys: &[Key]) -> Result<Vec<u32>, Memory>
    ensures { IfOk result (λ sources. sources.items ≡ map (λ key. key.source) keys.now) }
{
    let sources = keys.iter().map(|key| key.source).collect(alloc)?;
    Ok(sources)
}

// The last of each read.
fn last_reads(alloc: Global, reads: &[Read]) -> Result<Vec<u32>, Memory>
    ensures { IfOk result (λ last_reads. last_reads.items ≡ map (λ read. read.last) reads.now) }
{
    let last_reads = reads.iter().map(|read| read.last).collect(alloc)?;
    Ok(last_reads)
}

// How many keys are of words up to this one.
fn word_end(keys: &[Key], word: u16) -> usize
    requires { AreInOrder keys.now }
    ensures { result ≡ count_by (λ key. nat_le key.word word) keys.now }
{
    keys.partition_point(|key| key.word <= word)
}

/// The sources of each word, by position.
pub fn source_rows(alloc: Global, words: u16, keys: &[Key]) -> Result<Rows, Memory>
    requires { AreInOrder keys.now }
    ensures { (log : Log) → words ≡ length log.last_tags → AreKeys log keys.now → IfOk result (λ rows. rows ≡ source_rows log) }
{
    let mut starts = Vec::with_capacity(alloc, usize::from(words) + 1)?;
    starts.push(0)?;
    for word in 0..words {
        starts.push(word_end(keys, word))?;
    }
    Ok(Rows::new(sources(alloc, keys)?, starts))
}

// Whether the read is of a key up to this one.
fn is_up_to(read: &Read, key: &Key) -> bool
    ensures { result ≡ is_read_up_to key.now read.now }
{
    read.key() <= *key
}

// How many reads are of keys up to this one.
fn key_end(reads: &[Read], key: &Key) -> usize
    requires { AreReadsInOrder reads.now }
    ensures { result ≡ count_by (is_read_up_to key.now) reads.now }
{
    reads.partition_point(|read| is_up_to(read, key))
}

/// The last reads of each source, by position.
pub fn last_rows(alloc: Global, keys: &[Key], reads: &[Read]) -> Result<Rows, Memory>
    requires keys { AreInOrder keys.now }
    requires reads { AreReadsInOrder reads.now }
    ensures { (log : Log) → IsWellFormed log → AreKeys log keys.now → AreReads log reads.now → IfOk result (λ rows. rows ≡ last_rows log) }
{
    let mut starts = Vec::new(alloc);
    starts.push(0)?;
    for key in keys {
        starts.push(key_end(reads, key))?;
    }
    Ok(Rows::new(last_reads(alloc, reads)?, starts))
}

// The key of each read.
fn keys_of(alloc: Global, reads: &[Read]) -> Result<Vec<Key>, Memory>
    ensures { IfOk result (λ keys. keys.items ≡ map key_of reads.now) }
{
    let keys = reads.iter().map(|read| read.key()).collect(alloc)?;
    Ok(keys)
}

/// The sources that were read, by word and position, each once.
pub fn sorted_keys(alloc: Global, reads: &[Read]) -> Result<Vec<Key>, Memory>
    requires { AreReadsInOrder reads.now }
    ensures order { IfOk result (λ keys. AreInOrder keys.items) }
    ensures keys { (log : Log) → IsWellFormed log → AreReads log reads.now → IfOk result (λ keys. AreKeys log keys.items) }
{
    let mut keys = keys_of(alloc, reads)?;
    keys.dedup();
    Ok(keys)
}
