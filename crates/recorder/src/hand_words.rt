// The shared words, as one thread takes its steps on them.
ghost use Rattle.std.specs.Prelude.{◌≡◌, ◌<◌, false, is_some, length};
ghost use Rattle.replay_model.specs.Steps.{has_ended, reads, word_of};
ghost use Rattle.tagged_words.specs.Hands.{HasStepLeft, IsOf, Takes};
ghost use Rattle.recorder.specs.HandWords.{IsReadyFor, NotesLoad};

use light_base::{Cell, Event};
use machine::Want;
use running_thread::StepWords;
use tagged_words::{Cond, Hand, Seen, Words};

/// The words, the thread's hand at them, and what its last load saw.
#[derive(Drop)]
pub(crate) struct HandWords<'a> {
    pub(crate) words: &'a Words,
    pub(crate) hand: Hand,
    pub(crate) loaded: Option<Seen>,
}

// Takes this step at the words: what a reading one found. A conditional write takes the load before it from `loaded`,
// where a load leaves what it saw.
#[inline(always)]
fn take_step(words: &Words, hand: &mut Hand, loaded: &mut Option<Seen>, want: &Want) -> Option<Cell>
    requires own { IsOf words.now hand.old }
    requires room { HasStepLeft hand.old }
    requires lives { has_ended want.now ≡ false }
    requires inside { word_of want.now < length words.now.start.initial }
    requires ready { IsReadyFor hand.old loaded.old want.now }
    ensures step { Takes hand.old want.now result hand.new }
    ensures found { is_some result ≡ reads want.now }
    ensures loads { NotesLoad want.now result hand.new loaded.new }
    ensures own { IsOf words.now hand.new }
{
    match want {
        Want::Load(word) => {
            let (cell, seen) = words.load(hand, *word);
            *loaded = Some(seen);
            Some(cell)
        }
        Want::Store(word, value) => {
            words.store(hand, *word, *value);
            None
        }
        Want::Swap(word, value) => Some(words.swap(hand, *word, *value)),
        Want::Cond(_, _, value) => {
            let Some(seen) = *loaded else { unreachable!() };
            match words.cond(hand, &seen, *value) {
                Cond::Won => Some(seen.cell()),
                Cond::Lost(cell) => Some(cell),
            }
        }
        Want::Ended(_) => unreachable!(),
    }
}

impl<'a> StepWords for HandWords<'a> {
    ghost use Rattle.recorder.specs.HandWords.{IsReady, TakesAt};

    ghost ready = { IsReady };

    ghost takes = { TakesAt };

    #[inline(always)]
    fn take(&mut self, _event: Event, want: &Want) -> Option<Cell> {
        take_step(self.words, &mut self.hand, &mut self.loaded, want)
    }
}
