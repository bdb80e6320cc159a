// How many steps each thread has, and where its writes begin among those of a word; and which write was read next.
ghost use Rattle.std.specs.Prelude.{◌≡◌, ℕ, ◌+◌, ◌<◌, ◌≤◌, ◌^◌, ◌==◌, All, IfOk, length, map};
ghost use Rattle.std.specs.List.{count_by, range_with_len};
ghost use Rattle.audit.specs.Tables.{below, starts_in, has_numbers, read_flags, AreNexts};
ghost use Rattle.audit.specs.Rows.{row_at};

use crate::next_places::next_set;
use crate::rows::Row;
use light_base::{Event, Memory};
use std::alloc::Global;

// How many of the steps are of this thread.
fn count_of(steps: &[Event], thread: u8) -> u32
    requires { length steps.now < 2 ^ 32 }
    ensures { result ≡ count_by (λ step. step.thread == thread) steps.now }
{
    let mut count: u32 = 0;
    for step in steps {
        if step.thread == thread {
            count += 1;
        }
    }
    count
}

/// The number of steps of each thread.
#[tactic(auto, using(constraints::proofs::Naming::map_range_more))]
pub(crate) fn counts_of(alloc: Global, threads: u8, steps: &[Event]) -> Result<Vec<u32>, Memory>
    requires { length steps.now < 2 ^ 32 }
    ensures { IfOk result (λ counts. counts.items ≡ map (λ t. count_by (λ step. step.thread == t) steps.now) (range_with_len 0 threads)) }
{
    let mut counts = Vec::with_capacity(alloc, usize::from(threads))?;
    for t in 0..threads {
        counts.push(count_of(steps, t))?;
    }
    Ok(counts)
}

// How many of the positions are those of steps of threads below this one.
fn count_below(steps: &[Event], positions: &[u32], thread: u8) -> u32
    requires within { All (λ p. p < length steps.now) positions.now }
    requires small { length positions.now < 2 ^ 32 }
    ensures { result ≡ count_by (below steps.now thread) positions.now }
{
    let mut count: u32 = 0;
    for position in positions {
        if steps[*position as usize].thread < thread {
            count += 1;
        }
    }
    count
}

// The same for each thread, and at the end for all of them.
#[tactic(auto, using(constraints::proofs::Naming::map_range_more))]
fn starts_of(alloc: Global, threads: u8, steps: &[Event], positions: &[u32]) -> Result<Row, Memory>
    requires threads { threads ≤ 15 }
    requires within { All (λ p. p < length steps.now) positions.now }
    requires small { length positions.now < 2 ^ 32 }
    ensures { IfOk result (λ starts. starts ≡ starts_in steps.now threads positions.now) }
{
    let mut starts = Vec::with_capacity(alloc, usize::from(threads) + 1)?;
    for t in 0..threads + 1 {
        starts.push(count_below(steps, positions, t))?;
    }
    Ok(Row::new(starts))
}

/// The same for each row of positions.
pub(crate) fn all_starts(
    alloc: Global,
    threads: u8,
    steps: &[Event],
    rows: &[Row],
) -> Result<Vec<Row>, Memory>
    requires threads { threads ≤ 15 }
    requires within { All (λ row. All (λ p. p < length steps.now) row) rows.now }
    requires small { All (λ row. length row < 2 ^ 32) rows.now }
    ensures { IfOk result (λ starts. starts.items ≡ map (starts_in steps.now threads) rows.now) }
{
    let mut starts = Vec::with_capacity(alloc, rows.len())?;
    for row in rows {
        starts.push(starts_of(alloc, threads, steps, row.numbers())?)?;
    }
    Ok(starts)
}

// Which of the positions have a row with numbers.
fn flags_of(alloc: Global, lasts: &[Row], positions: &[u32]) -> Result<Vec<bool>, Memory>
    requires { All (λ p. p < length lasts.now) positions.now }
    ensures { IfOk result (λ flags. flags.items ≡ read_flags lasts.now positions.now) }
{
    let mut flags = Vec::with_capacity(alloc, positions.len())?;
    for position in positions {
        flags.push(!lasts[*position as usize].numbers().is_empty())?;
    }
    Ok(flags)
}

// From each place of a row of positions the next one that has a row with numbers.
fn nexts_of(alloc: Global, lasts: &[Row], positions: &[u32]) -> Result<Row, Memory>
    requires within { All (λ p. p < length lasts.now) positions.now }
    requires small { length positions.now < 2 ^ 32 }
    ensures { IfOk result (AreNexts lasts.now positions.now) }
{
    let flags = flags_of(alloc, lasts, positions)?;
    Ok(Row::new(next_set(alloc, &flags)?))
}

/// The same for each row of positions.
pub(crate) fn all_nexts(alloc: Global, lasts: &[Row], rows: &[Row]) -> Result<Vec<Row>, Memory>
    requires within { All (λ row. All (λ p. p < length lasts.now) row) rows.now }
    requires small { All (λ row. length row < 2 ^ 32) rows.now }
    ensures count { IfOk result (λ nexts. length nexts.items ≡ length rows.now) }
    ensures each { IfOk result (λ nexts. (k : ℕ) → k < length rows.now → AreNexts lasts.now (row_at rows.now k) (row_at nexts.items k)) }
{
    let mut nexts = Vec::with_capacity(alloc, rows.len())?;
    for row in rows {
        nexts.push(nexts_of(alloc, lasts, row.numbers())?)?;
    }
    Ok(nexts)
}
