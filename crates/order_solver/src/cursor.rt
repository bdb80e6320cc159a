// A place among the pairs.
ghost use Rattle.std.specs.Prelude.{◌≡◌, ◌+◌, ◌<◌, ◌^◌};
ghost use Rattle.order_solver.specs.Cursors.{cursor};

/// Two sources of a word, by their places, the lesser one first. The pairs stand by word, lesser and greater.
#[derive(Clone, Copy)]
pub struct Cursor {
    pub word: u16,
    pub lesser: u32,
    pub greater: u32,
}

// The first pair of a word.
pub fn first_of(word: u16) -> Cursor
    ensures { result ≡ cursor word 0 1 }
{
    Cursor {
        word,
        lesser: 0,
        greater: 1,
    }
}

// The pair of the same lesser source with the next one.
pub fn next_to(at: Cursor) -> Cursor
    requires { at.greater + 1 < 2 ^ 32 }
    ensures { result ≡ cursor at.word at.lesser (at.greater + 1) }
{
    Cursor {
        word: at.word,
        lesser: at.lesser,
        greater: at.greater + 1,
    }
}

// The pair of the same lesser source with this one.
pub fn with_greater(at: Cursor, greater: u32) -> Cursor
    ensures { result ≡ cursor at.word at.lesser greater }
{
    Cursor {
        word: at.word,
        lesser: at.lesser,
        greater,
    }
}
