// How many pairs there are of each kind.
ghost use Rattle.std.specs.Prelude.{◌≡◌, ◌+◌, ◌<◌, ◌^◌};
ghost use Rattle.constraints.specs.SideEdges.{pair_count};
ghost use Rattle.races.specs.Openings.{both};

/// How many pairs there are, and how many of them are open, forced and stuck.
#[derive(Clone, Copy)]
pub struct Tally {
    pub pairs: u64,
    pub left_open: u64,
    pub forced: u64,
    pub stuck: u64,
}

/// How many pairs so many sources make.
pub fn pair_count(sources: u64) -> u64
    requires { sources < 2 ^ 20 }
    ensures value { result ≡ pair_count sources }
    ensures small { result < 2 ^ 39 }
{
    sources * sources.saturating_sub(1) / 2
}

/// The pairs of both.
pub fn added(one: Tally, other: Tally) -> Tally
    requires pairs { one.pairs + other.pairs < 2 ^ 64 }
    requires left_open { one.left_open + other.left_open < 2 ^ 64 }
    requires forced { one.forced + other.forced < 2 ^ 64 }
    requires stuck { one.stuck + other.stuck < 2 ^ 64 }
    ensures { result ≡ both one other }
{
    Tally {
        pairs: one.pairs + other.pairs,
        left_open: one.left_open + other.left_open,
        forced: one.forced + other.forced,
        stuck: one.stuck + other.stuck,
    }
}
