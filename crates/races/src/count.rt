// How many pairs of one source there are of each kind.
ghost use Rattle.std.specs.Prelude.{◌≡◌, ℕ, ◌+◌, ◌-◌, ◌*◌, ◌<◌, ◌≤◌, ◌^◌, true, false, length};
ghost use Rattle.std.specs.List.{count_by, range_with_len};
ghost use Rattle.constraints.specs.Constraints.{sources_of, group_of, pairs_at};
ghost use Rattle.plain_search.specs.Openness.{is_stuck};
ghost use Rattle.races.specs.Shut.{shuts, base_edges};
ghost use Rattle.races.specs.Tables.{IsTable, IsRow, IsStretch, sticks};
ghost use Rattle.races.specs.Openings.{IsTally, shut_total};

use crate::shut::Source;
use crate::table::{Row, Table, row_of};
use crate::tally::{Tally, pair_count};
use constraints::Problem;

// Before how many of the word's sources one may not come, itself among them.
fn shut_count(problem: &Problem, table: &Table, source: Source) -> u64
    requires table { IsTable problem.now source.word table.now }
    requires place { source.place < length (sources_of problem.now source.word) }
    ensures { result ≡ count_by (shuts problem.now source.word source.place) (range_with_len 0 (length (sources_of problem.now source.word))) }
{
    let _events = problem.events();
    let mut count: u64 = 0;
    for thread in 0..table.threads {
        let end = table.ends[source.place as usize * table.threads + thread];
        count += u64::from(end - table.starts[thread]);
    }
    count
}

// Whether it is seen at once that each of the sources from one place to another may come before the row's.
fn none_is_back(problem: &Problem, table: &Table, row: Row, from: u32, to: u32) -> bool
    requires table { IsTable problem.now row.word table.now }
    requires row { IsRow problem.now row }
    requires stretch { IsStretch problem.now row.word from to }
    ensures { result ≡ true → (j : ℕ) → from ≤ j → j < to → shuts problem.now row.word j row.place ≡ false }
{
    let _events = problem.events();
    if from >= to {
        return true;
    }
    table.tops[(to - 1) as usize * table.threads + row.thread] <= row.place
}

// How many of the sources from one place to another may not come before the row's.
fn back_count(problem: &Problem, table: &Table, row: Row, from: u32, to: u32) -> u64
    requires table { IsTable problem.now row.word table.now }
    requires row { IsRow problem.now row }
    requires from { from ≤ to }
    requires to { to ≤ length (sources_of problem.now row.word) }
    requires stretch { IsStretch problem.now row.word from to }
    ensures { result ≡ count_by (λ j. shuts problem.now row.word j row.place) (range_with_len from (to - from)) }
{
    let _events = problem.events();
    if none_is_back(problem, table, row, from, to) {
        return 0;
    }
    let mut count: u64 = 0;
    for place in from..to {
        if row.place < table.ends[place as usize * table.threads + row.thread] {
            count += 1;
        }
    }
    count
}

// How many of the pairs of the row's source with later ones are stuck.
fn stuck_count(problem: &Problem, table: &Table, row: Row) -> u64
    requires table { IsTable problem.now row.word table.now }
    requires row { IsRow problem.now row }
    ensures { result ≡ count_by (sticks problem.now row.word row.place)
        (range_with_len (row.place + 1) (length (sources_of problem.now row.word) - (row.place + 1))) }
{
    let _events = problem.events();
    let mut count: u64 = 0;
    let mut from = row.place + 1;
    for thread in 0..table.threads {
        let end = table.ends[row.place as usize * table.threads + thread];
        if from < end {
            count += back_count(problem, table, row, from, end);
        }
        from = from.max(table.starts[thread + 1]);
    }
    count
}

// Over each of the word's sources, before how many it may not come, itself among them.
fn shut_total(problem: &Problem, table: &Table, word: u16) -> u64
    requires table { IsTable problem.now word table.now }
    ensures { result ≡ shut_total problem.now word }
{
    let _events = problem.events();
    let mut total: u64 = 0;
    for place in 0..table.sources {
        let source = Source {
            word,
            place: place as u32,
        };
        total += shut_count(problem, table, source);
    }
    total
}

// How many of the word's pairs are stuck.
fn stuck_total(problem: &Problem, table: &Table, word: u16) -> u64
    requires table { IsTable problem.now word table.now }
    ensures { result ≡ count_by (is_stuck (base_edges problem.now)) (pairs_at problem.now word) }
{
    let _events = problem.events();
    let mut total: u64 = 0;
    for place in 0..table.sources {
        let source = Source {
            word,
            place: place as u32,
        };
        total += stuck_count(problem, table, row_of(problem, table, source));
    }
    total
}

/// How many pairs the word has of each kind. A pair that is forced has one side that is shut, and one that is stuck has two; each
/// source may not come before itself.
pub fn tally_of(problem: &Problem, table: &Table, word: u16) -> Tally
    requires table { IsTable problem.now word table.now }
    ensures value { IsTally (base_edges problem.now) (pairs_at problem.now word) result }
    ensures small { result.pairs < 2 ^ 39 }
{
    let _events = problem.events();
    let sources = table.sources as u64;
    let shut = shut_total(problem, table, word) - sources;
    let stuck = stuck_total(problem, table, word);
    let pairs = pair_count(sources);
    let forced = shut - 2 * stuck;
    Tally {
        pairs,
        left_open: pairs - forced - stuck,
        forced,
        stuck,
    }
}
