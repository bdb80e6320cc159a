// Who writes each word, and who reads last what they wrote.
ghost use Rattle.std.specs.Prelude.{◌<◌};

use crate::chains::Chains;
use crate::clocks::{CHAINS, Clock, NEVER};
use crate::rows::Rows;
use crate::stop::Stop;
use order_judge::Read;
use std::alloc::{AllocError, Global};

/// The most words there may be.
const WORDS: u32 = 1 << 16;

/// A node that writes a word.
#[derive(Clone, Copy)]
pub struct Writer {
    /// Its number among the writers by word and node.
    pub number: u32,
    pub word: u32,
    pub node: u32,
    /// The next node of its chain that writes the word; `NEVER` where none does.
    pub next: u32,
}

#[derive(Drop)]
pub struct Writers {
    writers: Vec<Writer>,
    firsts: Vec<Clock>,
    at: Rows<Writer>,
    last_reads: Rows<u32>,
    reads: Rows<Read>,
}

impl Writers {
    /// Of these reads; `Stuck` where there are more than 65,536 words.
    pub fn of(alloc: Global, chains: &Chains, reads: &[Read]) -> Result<Writers, Stop> {
        let words = words_of(reads);
        if words > WORDS {
            return Err(Stop::Stuck);
        }
        let sorted = by_source(alloc, chains.nodes(), words, reads)?;
        let Listing {
            mut writers,
            last_reads,
            count,
        } = Listing::of(alloc, sorted.items())?;
        Ok(Writers {
            firsts: follow_on(alloc, chains, words, &mut writers)?,
            at: at_nodes(alloc, chains.nodes(), &writers)?,
            last_reads: Rows::of(alloc, count, &last_reads)?,
            reads: by_last(alloc, chains, words, reads)?,
            writers,
        })
    }

    /// All of them by number.
    pub fn all(&self) -> &[Writer] {
        &self.writers
    }

    /// A node as a writer, once for each word that it writes.
    pub fn at(&self, node: u32) -> &[Writer] {
        self.at.row(node)
    }

    /// For each word and chain the first node that writes the word; `NEVER` where none does.
    pub fn firsts(&self) -> &[Clock] {
        &self.firsts
    }

    /// The last reads of what the writer with this number wrote, as nodes.
    pub fn last_reads(&self, number: u32) -> &[u32] {
        self.last_reads.row(number)
    }

    /// The reads of a word whose last one is in this chain, by that one.
    pub fn reads(&self, word: u32, chain: usize) -> &[Read]
        requires { chain < 16 }
    {
        self.reads.row(row_of(word, chain))
    }
}

// One more than the greatest word.
fn words_of(reads: &[Read]) -> u32 {
    let mut words: u32 = 0;
    for read in reads {
        words = words.max(read.word.saturating_add(1));
    }
    words
}

// The reads by word and source.
fn by_source(
    alloc: Global,
    nodes: u32,
    words: u32,
    reads: &[Read],
) -> Result<Rows<Read>, AllocError> {
    let mut pairs = Vec::with_capacity(alloc, reads.len())?;
    for read in reads {
        pairs.push((read.source, *read))?;
    }
    let by_node = Rows::of(alloc, nodes, &pairs)?;
    pairs.clear();
    for read in by_node.items() {
        pairs.push((read.word, *read))?;
    }
    Rows::of(alloc, words, &pairs)
}

// The row of a word and a chain.
fn row_of(word: u32, chain: usize) -> u32
    requires { chain < 16 }
{
    word.wrapping_mul(16).wrapping_add(chain as u32)
}

// The reads by word, chain of the last one, and last one.
fn by_last(
    alloc: Global,
    chains: &Chains,
    words: u32,
    reads: &[Read],
) -> Result<Rows<Read>, AllocError> {
    let mut pairs = Vec::with_capacity(alloc, reads.len())?;
    for read in reads {
        pairs.push((read.last, *read))?;
    }
    let by_node = Rows::of(alloc, chains.nodes(), &pairs)?;
    pairs.clear();
    for read in by_node.items() {
        pairs.push((row_of(read.word, chains.chain_of(read.last)), *read))?;
    }
    Rows::of(alloc, row_of(words, 0), &pairs)
}

// Writers, and for each read the number of its writer with its last one.
#[derive(Drop)]
struct Listing {
    writers: Vec<Writer>,
    last_reads: Vec<(u32, u32)>,
    count: u32,
}

impl Listing {
    // Of reads that stand by word and source.
    fn of(alloc: Global, reads: &[Read]) -> Result<Listing, AllocError> {
        let mut listing = Listing {
            writers: Vec::new(alloc),
            last_reads: Vec::with_capacity(alloc, reads.len())?,
            count: 0,
        };
        for read in reads {
            listing.take(read)?;
        }
        Ok(listing)
    }

    // Whether the latest writer is the one that is read.
    fn is_latest(&self, read: &Read) -> bool {
        match self.writers.last() {
            Some(writer) => writer.word == read.word && writer.node == read.source,
            None => false,
        }
    }

    // Takes a read of the latest writer or of one after it.
    fn take(&mut self, read: &Read) -> Result<(), AllocError> {
        if !self.is_latest(read) {
            self.writers.push(Writer {
                number: self.count,
                word: read.word,
                node: read.source,
                next: NEVER,
            })?;
            self.count = self.count.wrapping_add(1);
        }
        self.last_reads
            .push((self.count.wrapping_sub(1), read.last))?;
        Ok(())
    }
}

// Tells each writer the next one, and gives for each word and chain the first one.
fn follow_on(
    alloc: Global,
    chains: &Chains,
    words: u32,
    writers: &mut [Writer],
) -> Result<Vec<Clock>, AllocError> {
    let mut firsts = vec![in alloc; [NEVER; CHAINS]; words as usize]?;
    for writer in writers.iter_mut().rev() {
        if let Some(clock) = firsts.get_mut(writer.word as usize) {
            let chain = chains.chain_of(writer.node);
            writer.next = clock[chain];
            clock[chain] = writer.node;
        }
    }
    Ok(firsts)
}

// The writers by node.
fn at_nodes(alloc: Global, nodes: u32, writers: &[Writer]) -> Result<Rows<Writer>, AllocError> {
    let mut pairs = Vec::with_capacity(alloc, writers.len())?;
    for writer in writers {
        pairs.push((writer.node, *writer))?;
    }
    Rows::of(alloc, nodes, &pairs)
}
