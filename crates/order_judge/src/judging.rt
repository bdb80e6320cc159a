// The judge.
ghost use Rattle.std.specs.Prelude.{◌≡◌, ◌^◌, ◌<◌, ◌↔◌, IsTrue, IfOk, All, length, sum};
ghost use Rattle.plain_search.specs.declared.Edge.{Edge};
ghost use Rattle.order_judge.specs.declared.judging.Read.{Read};
ghost use Rattle.order_judge.specs.Judging.{Respects, AreRanges, TakeTurns};

use crate::live_ranges::{LiveRange, first_overlap};
use crate::places::{Placing, places_of};
use crate::rising::all_rise;
use light_base::Memory;
use plain_search::Edge;
use std::alloc::Global;

/// One writer of a word, and a last read of what it wrote: the node `source` wrote to the word, and no read of it by the
/// thread of the node `last` comes after that node. A write that nobody read is its own last read.
#[derive(Clone, Copy, Debug, PartialEq, Eq)]
pub struct Read {
    pub word: u32,
    pub source: u32,
    pub last: u32,
}

// The live range of each read, unless a last read comes before its source.
fn ranges_of(
    alloc: Global,
    reads: &[Read],
    places: &[u32],
) -> Result<Option<Vec<LiveRange>>, Memory>
    requires { All (λ (r : Read). (r.source < length places.now) × (r.last < length places.now)) reads.now }
    ensures { IfOk result (λ found. AreRanges reads.now places.now found) }
{
    let mut ranges = Vec::with_capacity(alloc, reads.len())?;
    for read in reads {
        let from = places[read.source as usize];
        let to = places[read.last as usize];
        if to < from {
            return Ok(None);
        }
        ranges.push(LiveRange {
            word: read.word,
            from,
            to,
        })?;
    }
    Ok(Some(ranges))
}

// Whether no last read comes before its source, and live ranges of one word are apart.
fn take_turns(alloc: Global, reads: &[Read], places: &[u32]) -> Result<bool, Memory>
    requires len { length reads.now < 2 ^ 32 }
    requires nodes { All (λ (r : Read). (r.source < length places.now) × (r.last < length places.now)) reads.now }
    ensures { IfOk result (λ yes. IsTrue yes ↔ TakeTurns places.now reads.now) }
{
    let Some(ranges) = ranges_of(alloc, reads, places)? else {
        return Ok(false);
    };
    Ok(first_overlap(alloc, &ranges)?.is_none())
}

// The number of nodes.
fn nodes_of(counts: &[u32]) -> u32
    requires { sum counts.now < 2 ^ 32 }
    ensures { result ≡ sum counts.now }
{
    counts.iter().sum()
}

/// Whether the order respects the edges and the reads: it holds each node once and nothing else; the nodes of each chain and
/// the ends of each edge stand in it one after the other; no last read stands before its source; and of two sources of one
/// word, one stands no earlier than the last reads of the other. Nodes are numbered from 0, chain after chain; `counts` are the
/// lengths of the chains.
pub fn respects(
    alloc: Global,
    counts: &[u32],
    edges: &[Edge],
    reads: &[Read],
    order: &[u32],
) -> Result<bool, Memory>
    requires nodes { sum counts.now < 2 ^ 32 }
    requires order_len { length order.now < 2 ^ 32 }
    requires reads_len { length reads.now < 2 ^ 32 }
    requires edges { All (λ (e : Edge). (e.from < sum counts.now) × (e.to < sum counts.now)) edges.now }
    requires reads { All (λ (r : Read). (r.source < sum counts.now) × (r.last < sum counts.now)) reads.now }
    ensures { IfOk result (λ yes. IsTrue yes ↔ Respects counts.now edges.now reads.now order.now) }
{
    let Placing::Placed(places) = places_of(alloc, nodes_of(counts), order)? else {
        return Ok(false);
    };
    if !all_rise(counts, edges, &places) {
        return Ok(false);
    }
    take_turns(alloc, reads, &places)
}
