// The words that a thread takes its steps on.
ghost use Rattle.std.specs.Prelude.{◌≡◌, ℕ, List, Option, is_some};
ghost use Rattle.replay_model.specs.declared.Want.{Want};
ghost use Rattle.replay_model.specs.Steps.{Event, Cell, Step, reads};
ghost use Rattle.running_thread.specs.Running.{Asks, StayReady};

use light_base::{Cell, Event};
use replay_model::Want;

/// Words on which threads take their steps, whatever else takes steps on them too.
///
/// What a step finds and leaves is told by a relation between the words before it and after it.
pub trait StepWords {
    /// The words may take a step of a thread, of which these were taken before: there are so many words, and this is the
    /// thread's number.
    ghost ready: { Self → ℕ → ℕ → List Step → Type 0 };

    /// A step that is this event and wants this finds this, and leaves these words.
    ghost takes: { Self → Event → Want → Option Cell → Self → Type 0 };

    /// Takes a step: what a reading one finds.
    fn take(&mut self, event: Event, want: &Want) -> Option<Cell>
        requires { (size : ℕ) × (steps : List Step) × ready self.old size event.thread steps × Asks size event steps want.now }
        ensures step { takes self.old event want.now result self.new }
        ensures found { is_some result ≡ reads want.now }
        ensures ready { StayReady ready event want.now result self.old self.new };
}
