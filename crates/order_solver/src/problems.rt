// A log's problem as what the search works on.
ghost use Rattle.std.specs.Prelude.{◌≡◌};

use crate::rivals::Rivals;
use constraints::Problem;
use plain_search::Edge;

impl Rivals for Problem {
    ghost use Rattle.order_solver.specs.Logs.{rivalry_of};

    ghost rivalry = { rivalry_of };

    fn counts(&self) -> &[u32] {
        Problem::counts(self)
    }

    fn base(&self) -> &[Edge] {
        Problem::base(self)
    }

    fn words(&self) -> u16 {
        Problem::words(self)
    }

    fn sources(&self, word: u16) -> &[u32] {
        Problem::sources(self, word)
    }

    fn last_reads(&self, word: u16, source: u32) -> &[u32] {
        Problem::lasts(self, word, source)
    }

    fn next_rival(&self, _word: u16, _source: u32, from: u32) -> u32 {
        from
    }

    fn group(&self, word: u16, thread: u8) -> (u32, u32) {
        Problem::group(self, word, thread)
    }
}
