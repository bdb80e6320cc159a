// Lists of jobs: which images and logs they name.
ghost use Rattle.std.specs.Prelude.{◌≡◌, ◌≤◌, ◌<◌, IfOk, IfErr, IfSome, Ok, length};
ghost use Rattle.std.specs.List.{list_all, position};
ghost use Rattle.light_top.specs.Given.{NotRead};
ghost use Rattle.batch.specs.Jobs.{most_jobs};
ghost use Rattle.light_top.specs.Pairs.{is_visible, is_space, listed_name, pair_of};
ghost use Rattle.light_top.specs.Lists.{as_list};

use crate::Status;
use crate::words::Name;
use assembler::split_line;
use std::alloc::Global;
use std::str;

/// The most jobs of a list.
const MOST_JOBS: u32 = 64;

/// The names of an image and of a log.
#[derive(Drop)]
pub struct Pair<'a> {
    pub image: Name<'a>,
    pub log: Name<'a>,
}

fn is_visible(b: u8) -> bool
    ensures { result ≡ is_visible b }
{
    33 <= b && b <= 126
}

fn are_visible(bytes: &[u8]) -> bool
    ensures { result ≡ list_all is_visible bytes.now }
{
    bytes.iter().all(|b| is_visible(*b))
}

// The name that these bytes of a list are.
fn listed_name<'a>(bytes: &'a [u8]) -> Option<Name<'a>>
    ensures { result ≡ listed_name bytes.now }
{
    if !are_visible(bytes) {
        return None;
    }
    match str::from_utf8(bytes) {
        Ok(text) => Name::of(text),
        Err(_) => unreachable!(),
    }
}

fn space_in(line: &[u8]) -> Option<usize>
    ensures value { result ≡ position is_space line.now }
    ensures within { IfSome result (λ space. space < length line.now) }
{
    line.iter().position(|b| *b == b' ')
}

// The two names of a line.
fn pair_in<'a>(line: &'a [u8]) -> Option<Pair<'a>>
    ensures { result ≡ pair_of line.now }
{
    let space = space_in(line)?;
    let image = listed_name(line.split_at(space).0)?;
    let log = listed_name(line.split_at(space + 1).1)?;
    Some(Pair { image, log })
}

/// The pairs of a list, or its first line at fault.
pub fn read_list<'a>(alloc: Global, text: &'a [u8]) -> Result<Vec<Pair<'a>>, Status>
    ensures ok { IfOk result (λ pairs. as_list text.now ≡ Ok pairs.items) }
    ensures err { IfErr result (NotRead (as_list text.now)) }
    ensures some { IfOk result (λ pairs. 1 ≤ length pairs.items) }
    ensures few { IfOk result (λ pairs. length pairs.items ≤ most_jobs) }
{
    let Ok(mut pairs) = Vec::with_capacity(alloc, MOST_JOBS as usize) else {
        return Err(Status::Memory);
    };
    let mut line: u32 = 1;
    let mut rest = text;
    while !rest.is_empty() {
        let (bytes, after) = split_line(rest);
        if line > MOST_JOBS {
            return Err(Status::ListRefused { line });
        }
        let Some(pair) = pair_in(bytes) else {
            return Err(Status::ListRefused { line });
        };
        pairs.push_reserved(pair);
        line += 1;
        rest = after;
    }
    if pairs.is_empty() {
        return Err(Status::ListRefused { line });
    }
    Ok(pairs)
}
