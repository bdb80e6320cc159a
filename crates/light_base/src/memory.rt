use std::alloc::{AllocError, AllocFailed};

/// A request for memory was refused.
#[derive(Clone, Copy, Debug, PartialEq, Eq)]
pub struct Memory;

impl From<AllocError> for Memory {
    ghost from_gives = { λ _ _. Unit {0} };

    fn from(_: AllocError) -> Memory {
        Memory
    }
}

impl<T: Drop> From<AllocFailed<T>> for Memory {
    ghost from_gives = { λ _ _. Unit {0} };

    fn from(_: AllocFailed<T>) -> Memory {
        Memory
    }
}

// The answer of a thread moves to the one that waits for it.
fn crosses(answer: Memory) -> Memory {
    is_moved(answer)
}

fn is_moved<T: Send>(value: T) -> T {
    value
}
