// The summary of an arena.
ghost use Rattle.std.specs.Prelude.{◌≡◌, ◌<◌, ◌*◌, ◌^◌, ◌++◌, length, sum, IfOk, OnOk};
ghost use Rattle.arena_samples.specs.Summaries.{points_of, size_line, points_line, summary_of};

use light_base::{Memory, put_decimal};
use std::alloc::Global;

// The points of a room's players.
fn room_points(players: &[u32]) -> u64
    requires { length players.now ≡ 5 }
    ensures value { result ≡ sum players.now }
    ensures bound { result < 5 * 2 ^ 32 }
{
    let mut points = 0;
    for player in players {
        points += u64::from(*player);
    }
    points
}

// The points of all players.
#[tactic(auto, using(crate::proofs::Ranges::sum_by_more))]
fn points(values: &[u32]) -> u64
    requires { length values.now ≡ 24 }
    ensures { result ≡ points_of values.now 4 }
{
    let mut points = 0;
    for room in 0..4 {
        points += room_points(&values[6 * room + 1..6 * room + 6]);
    }
    points
}

// Appends the line that tells the size of an arena.
fn put_size(text: &mut Vec<u8>, number: u32) -> Result<(), Memory>
    ensures { OnOk result (text.new.items ≡ text.old.items ++ size_line number) }
{
    text.extend_from_slice(b"arena ")?;
    put_decimal(text, u64::from(number))?;
    text.extend_from_slice(b" threads 8 words 24 moves 128\n")?;
    Ok(())
}

// Appends the line that tells the points.
fn put_points(text: &mut Vec<u8>, points: u64) -> Result<(), Memory>
    ensures { OnOk result (text.new.items ≡ text.old.items ++ points_line points) }
{
    text.extend_from_slice(b"points ")?;
    put_decimal(text, points)?;
    text.extend_from_slice(b"\n")?;
    Ok(())
}

/// The summary of the arena of a number whose words have these values at the end: its size, the points of all players, and
/// that the replay was the same.
pub fn summary(alloc: Global, number: u32, values: &[u32]) -> Result<Vec<u8>, Memory>
    requires { length values.now ≡ 24 }
    ensures { IfOk result (λ text. text.items ≡ summary_of number values.now) }
{
    let mut text = Vec::new(alloc);
    put_size(&mut text, number)?;
    put_points(&mut text, points(values))?;
    text.extend_from_slice(b"replay same\n")?;
    Ok(text)
}
