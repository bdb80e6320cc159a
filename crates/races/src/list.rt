// The open pairs, listed.
ghost use Rattle.std.specs.Prelude.{◌≡◌, ◌+◌, ◌<◌, ◌≤◌, ◌++◌, OnOk, length, map, filter, take, drop};
ghost use Rattle.constraints.specs.Constraints.{sources_of};
ghost use Rattle.races.specs.Shut.{source_at};
ghost use Rattle.races.specs.Tables.{IsTable, IsRow};
ghost use Rattle.races.specs.Openings.{open_at, open_row, pair_at};

use crate::next::next_open;
use crate::pair::Pair;
use crate::shut::Source;
use crate::table::{Row, Table, row_of};
use constraints::Problem;
use light_base::Memory;

// The pair of the row's source with the one at another place.
fn pair_with(problem: &Problem, row: Row, greater: u32) -> Pair
    requires word { row.word < length problem.now.last_tags }
    requires lesser { row.place < length (sources_of problem.now row.word) }
    requires greater { greater < length (sources_of problem.now row.word) }
    ensures { result ≡ pair_at problem.now row.word (source_at problem.now row.word row.place, source_at problem.now row.word greater) }
{
    let events = problem.events();
    let sources = problem.sources(row.word);
    Pair {
        word: row.word,
        lesser: events[sources[row.place as usize] as usize],
        greater: events[sources[greater as usize] as usize],
    }
}

// Appends the open pairs of the row's source with later ones, but no more than there may be.
fn list_row(
    problem: &Problem,
    table: &Table,
    row: Row,
    most: usize,
    first: &mut Vec<Pair>,
) -> Result<(), Memory>
    requires word { row.word < length problem.now.last_tags }
    requires table { IsTable problem.now row.word table.now }
    requires row { IsRow problem.now row }
    requires most { length first.old.items ≤ most }
    ensures { OnOk result (first.new.items ≡ take most (first.old.items ++ open_row problem.now row.word row.place)) }
{
    let _events = problem.events();
    let mut at = next_open(problem, table, row, row.place + 1);
    while (at as usize) < table.sources && first.len() < most {
        first.push(pair_with(problem, row, at))?;
        at = next_open(problem, table, row, at + 1);
    }
    Ok(())
}

// Appends the open pairs of a word, but no more than there may be.
pub fn list_word(
    problem: &Problem,
    table: &Table,
    word: u16,
    most: usize,
    first: &mut Vec<Pair>,
) -> Result<(), Memory>
    requires word { word < length problem.now.last_tags }
    requires table { IsTable problem.now word table.now }
    requires most { length first.old.items ≤ most }
    ensures { OnOk result (first.new.items ≡ take most (first.old.items ++ open_at problem.now word)) }
{
    let _events = problem.events();
    let mut place = 0;
    while place < table.sources && first.len() < most {
        let source = Source {
            word,
            place: place as u32,
        };
        list_row(problem, table, row_of(problem, table, source), most, first)?;
        place += 1;
    }
    Ok(())
}
