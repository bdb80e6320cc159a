// The next open pair.
ghost use Rattle.std.specs.Prelude.{◌≡◌, ℕ, ◌+◌, ◌-◌, ◌*◌, ◌<◌, ◌≤◌, true, not, length};
ghost use Rattle.constraints.specs.Constraints.{sources_of, group_of};
ghost use Rattle.races.specs.Shut.{shuts};
ghost use Rattle.races.specs.Tables.{IsTable, IsRow, IsStretch, IsNext, opens};

use crate::table::{Row, Table};
use constraints::Problem;

// Whether it is seen at once that none of the sources from one place to another may come before the row's.
fn all_are_back(problem: &Problem, table: &Table, row: Row, from: u32, to: u32) -> bool
    requires table { IsTable problem.now row.word table.now }
    requires row { IsRow problem.now row }
    requires stretch { IsStretch problem.now row.word from to }
    ensures { result ≡ true → (j : ℕ) → from ≤ j → j < to → shuts problem.now row.word j row.place ≡ true }
{
    let _events = problem.events();
    if from >= to {
        return true;
    }
    row.place < table.floors[from as usize * table.threads + row.thread]
}

// The first of the sources from one place to another that may come before the row's, each looked at.
fn scan_back(problem: &Problem, table: &Table, row: Row, from: u32, to: u32) -> u32
    requires table { IsTable problem.now row.word table.now }
    requires row { IsRow problem.now row }
    requires from { from ≤ to }
    requires to { to ≤ length (sources_of problem.now row.word) }
    ensures { IsNext (λ j. not (shuts problem.now row.word j row.place)) from to result }
{
    let _events = problem.events();
    let mut place = from;
    while place < to && row.place < table.ends[place as usize * table.threads + row.thread] {
        place += 1;
    }
    place
}

// The first of the sources from one place to another that may come before the row's.
fn next_back(problem: &Problem, table: &Table, row: Row, from: u32, to: u32) -> u32
    requires table { IsTable problem.now row.word table.now }
    requires row { IsRow problem.now row }
    requires from { from ≤ to }
    requires to { to ≤ length (sources_of problem.now row.word) }
    requires stretch { IsStretch problem.now row.word from to }
    ensures { IsNext (λ j. not (shuts problem.now row.word j row.place)) from to result }
{
    if all_are_back(problem, table, row, from, to) {
        return to;
    }
    scan_back(problem, table, row, from, to)
}

// The first of the sources from one place on with which the row's is an open pair, or their number.
pub fn next_open(problem: &Problem, table: &Table, row: Row, from: u32) -> u32
    requires table { IsTable problem.now row.word table.now }
    requires row { IsRow problem.now row }
    requires from { from ≤ length (sources_of problem.now row.word) }
    ensures { IsNext (opens problem.now row.word row.place) from (length (sources_of problem.now row.word)) result }
{
    let _events = problem.events();
    let mut at = from;
    for thread in 0..table.threads {
        let next = table.starts[thread + 1];
        if at < next {
            let end = table.ends[row.place as usize * table.threads + thread];
            at = next_back(problem, table, row, at.max(end), next);
            if at < next {
                return at;
            }
        }
    }
    at
}
