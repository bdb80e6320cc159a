// The writes of a replay, where they are noted.
ghost use Rattle.replayer.specs.Notes.{writes_of, NotesMore};

use light_base::Event;

/// A write that a thread made: the step, and the word that it wrote.
#[derive(Clone, Copy, Debug, PartialEq, Eq)]
pub struct Written {
    pub event: Event,
    pub word: u16,
}

// Notes what a step wrote, if it wrote and its writes are noted. Where there is no memory for it, nothing is noted any more.
#[inline(always)]
pub(crate) fn note(notes: &mut Option<Vec<Written>>, event: Event, word: u16, value: Option<u32>)
    ensures { NotesMore notes.old (writes_of event word value) notes.new }
{
    if let Some(writes) = notes {
        if value.is_some() && writes.push(Written { event, word }).is_err() {
            *notes = None;
        }
    }
}
