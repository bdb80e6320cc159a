// A rival pair by its writes.

use light_base::Event;

/// Two writes of one word that somebody saw, the one with the lesser tag first.
#[derive(Clone, Copy)]
pub struct Pair {
    pub word: u16,
    pub lesser: Event,
    pub greater: Event,
}
