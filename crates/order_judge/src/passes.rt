// Passes over sorted live ranges: which of them begin inside others.
ghost use Rattle.std.specs.Prelude.{◌≡◌};
ghost use Rattle.order_judge.specs.LiveRanges.{BeginsInside};
ghost use Rattle.order_judge.specs.Sorted.{IsLeastNumber, IsAround, passed_front, passed_back, AreSorted};

use crate::live_ranges::LiveRange;
use crate::sorted::Numbered;

// What the live ranges up to one of them, the last, say of its word: the greatest end of those that begin before the last
// begins, and the greatest end of all.
#[derive(Clone, Copy)]
struct Front {
    word: u32,
    from: u32,
    until: u32,
    end: u32,
}

impl Front {
    // The live range comes next.
    fn pass(&mut self, range: &LiveRange)
        ensures { self.new ≡ passed_front self.old range.now }
    {
        if range.word != self.word {
            self.until = 0;
            self.end = 0;
        } else if self.from < range.from {
            self.until = self.end;
        }
        self.word = range.word;
        self.from = range.from;
        self.end = self.end.max(range.to);
    }
}

// The least number of a live range that begins inside another one.
pub(crate) fn first_inside(sorted: &[Numbered]) -> u32
    requires { AreSorted sorted.now }
    ensures { IsLeastNumber BeginsInside sorted.now result }
{
    let mut least = u32::MAX;
    let mut front = Front {
        word: 0,
        from: 0,
        until: 0,
        end: 0,
    };
    for one in sorted {
        front.pass(&one.range);
        if one.range.from < front.until {
            least = least.min(one.number);
        }
    }
    least
}

// What the live ranges from one of them on say of its word: where the next one begins that begins after it.
#[derive(Clone, Copy)]
struct Back {
    word: u32,
    from: u32,
    next: u32,
}

impl Back {
    // The live range comes before.
    fn pass(&mut self, range: &LiveRange)
        ensures { self.new ≡ passed_back self.old range.now }
    {
        if range.word != self.word {
            self.next = u32::MAX;
        } else if range.from < self.from {
            self.next = self.from;
        }
        self.word = range.word;
        self.from = range.from;
    }
}

// The least number of a live range inside which another one begins.
pub(crate) fn first_around(sorted: &[Numbered]) -> u32
    requires { AreSorted sorted.now }
    ensures { IsLeastNumber IsAround sorted.now result }
{
    let mut least = u32::MAX;
    let mut back = Back {
        word: 0,
        from: 0,
        next: u32::MAX,
    };
    for k in (0..sorted.len()).rev() {
        let one = &sorted[k];
        back.pass(&one.range);
        if back.next < one.range.to {
            least = least.min(one.number);
        }
    }
    least
}
