// The words of a replay: of the writes, those are made that the log names.
use crate::kept_steps::KeptSteps;
use crate::notes::{Written, note};
use light_base::{Cell, Event};
use machine::Want;
use running_thread::StepWords;
use running_thread::cells::{found_in, word_of, write, written};

/// The words of a replay, for each thread the steps whose writes are still to be made, and all writes so far, made or not,
/// where they are noted.
#[derive(Drop)]
pub struct ReplayWords {
    pub cells: Vec<Cell>,
    pub kept: Vec<KeptSteps>,
    pub notes: Option<Vec<Written>>,
}

impl StepWords for ReplayWords {
    ghost use Rattle.replayer.specs.Words.{IsReady, Takes};

    ghost ready = { IsReady };

    ghost takes = { Takes };

    #[inline(always)]
    fn take(&mut self, event: Event, want: &Want) -> Option<Cell> {
        let found = found_in(&self.cells, want);
        let value = written(want, &found);
        let kept = &mut self.kept[usize::from(event.thread)];
        let made = kept.takes(event.step);
        write(&mut self.cells, made, word_of(want), event, value);
        note(&mut self.notes, event, word_of(want), value);
        found
    }
}
