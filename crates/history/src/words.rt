// The words of a play: every write is made.
use light_base::{Cell, Event};
use machine::Want;
use running_thread::StepWords;
use running_thread::cells::{found_in, word_of, write, written};

/// The words, each with its last writer.
#[derive(Drop)]
pub(crate) struct PlainWords {
    pub(crate) cells: Vec<Cell>,
}

impl StepWords for PlainWords {
    ghost use Rattle.history.specs.Words.{IsReady, Takes};

    ghost ready = { IsReady };

    ghost takes = { Takes };

    #[inline(always)]
    fn take(&mut self, event: Event, want: &Want) -> Option<Cell> {
        let found = found_in(&self.cells, want);
        let value = written(want, &found);
        write(&mut self.cells, true, word_of(want), event, value);
        found
    }
}
