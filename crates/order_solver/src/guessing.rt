// A row of nodes that is guessed, and judged.
ghost use Rattle.std.specs.Prelude.{◌≡◌, ◌<◌, ◌++◌, IfOk, OnOk, IfSome, IsTrue};
ghost use Rattle.order_solver.specs.Rivals.{AreRivals};
ghost use Rattle.order_solver.specs.Readings.{reads_of, reads_at, reads_in};
ghost use Rattle.order_solver.specs.Findings.{IsLineOf};

use crate::rivals::Rivals;
use light_base::Memory;
use order_judge::{Read, respects};
use schedule_guess::guess;
use std::alloc::Global;

// The most of anything that the judge counts.
const MOST: usize = 4_294_967_295;

// Appends the reads of a source.
fn put_last_reads(
    reads: &mut Vec<Read>,
    word: u16,
    source: u32,
    last_reads: &[u32],
) -> Result<(), Memory>
    ensures { OnOk result (reads.new.items ≡ reads.old.items ++ reads_of word source last_reads.now) }
{
    for last in last_reads {
        reads.push(Read {
            word: u32::from(word),
            source,
            last: *last,
        })?;
    }
    Ok(())
}

// Appends the reads of a word.
fn put_word<R: Rivals>(reads: &mut Vec<Read>, rivals: &R, word: u16) -> Result<(), Memory>
    requires rivals { AreRivals (R.rivalry rivals.now) }
    requires word { word < (R.rivalry rivals.now).words }
    ensures { OnOk result (reads.new.items ≡ reads.old.items ++ reads_at (R.rivalry rivals.now) word) }
{
    for (i, source) in rivals.sources(word).iter().enumerate() {
        put_last_reads(reads, word, *source, rivals.last_reads(word, i as u32))?;
    }
    Ok(())
}

// All reads.
fn all_reads<R: Rivals>(alloc: Global, rivals: &R) -> Result<Vec<Read>, Memory>
    requires { AreRivals (R.rivalry rivals.now) }
    ensures { IfOk result (λ reads. reads.items ≡ reads_in (R.rivalry rivals.now)) }
{
    let mut reads = Vec::new(alloc);
    for word in 0..rivals.words() {
        put_word(&mut reads, rivals, word)?;
    }
    Ok(reads)
}

// Whether the judge lets a row stand.
fn is_line<R: Rivals>(
    alloc: Global,
    rivals: &R,
    reads: &[Read],
    row: &[u32],
) -> Result<bool, Memory>
    requires rivals { AreRivals (R.rivalry rivals.now) }
    requires reads { reads.now ≡ reads_in (R.rivalry rivals.now) }
    ensures { IfOk result (λ yes. IsTrue yes → IsLineOf (R.rivalry rivals.now) row.now) }
{
    if reads.len() > MOST || row.len() > MOST {
        return Ok(false);
    }
    respects(alloc, rivals.counts(), rivals.base(), reads, row)
}

/// A row of all nodes along which the edges rise, and of each two sources of a word one comes first with its last reads, as it was
/// guessed and judged. None says nothing: there may be such a row.
pub fn guess_line<R: Rivals>(alloc: Global, rivals: &R) -> Result<Option<Vec<u32>>, Memory>
    requires { AreRivals (R.rivalry rivals.now) }
    ensures { IfOk result (λ found. IfSome found (λ line. IsLineOf (R.rivalry rivals.now) line.items)) }
{
    let reads = all_reads(alloc, rivals)?;
    let Some(row) = guess(alloc, rivals.counts(), rivals.base(), &reads)? else {
        return Ok(None);
    };
    if is_line(alloc, rivals, &reads, &row)? {
        Ok(Some(row))
    } else {
        Ok(None)
    }
}
