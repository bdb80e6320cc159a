// Who wrote a word, and the word with its writer.
ghost use Rattle.std.specs.Prelude.{◌≡◌, ◌↔◌, ◌%◌, ◌^◌, IsTrue, IfSome};
ghost use Rattle.std.specs.Option.{SomeIff};
ghost use Rattle.light_base.specs.Tags.{HasTag, IsTag, bits_of, writer_of};
ghost use Rattle.light_base.specs.Cells.{packed, unpacked};

use std::marker::Model;

/// One more than the greatest step that a tag can name, and what one thread is worth in a tag's number.
const STEP_END: u32 = 1 << 28;

/// The greatest number of a thread that a tag can name.
const LAST_THREAD: u8 = 14;

/// What a cell's value is worth in the cell's number, which has the tag's number in its low half.
const HALF: u64 = 1 << 32;

/// Memory step number `step` of the thread with number `thread`. Threads are numbered from 0, and steps from 1.
///
/// An event has a tag where its thread is at most 14 and its step is from 1 to 2^28 - 1.
#[derive(Clone, Copy, Debug, PartialEq, Eq, Hash)]
pub struct Event {
    pub thread: u8,
    pub step: u32,
}

/// The writer of a word: a memory step of one of at most 15 threads, or nobody for the initial contents.
/// Tags are ordered as their numbers.
#[derive(Clone, Copy, Debug, PartialEq, Eq, PartialOrd, Ord)]
pub struct Tag {
    bits: u32,
}

impl Model for Tag {
    ghost use Rattle.std.specs.Prelude.{ℕ, Option};
    ghost use Rattle.light_base.specs.declared.tag.Event.{Event};

    ghost Value = { Option Event };

    ghost use Rattle.light_base.specs.Tags.{writer_of, bits_of, IsTag, bits_of-writer_of};
    ghost use Rattle.std.proofs.Common.{ap};

    ghost view = { λ t. writer_of t.bits };

    ghost invariant = { λ t. IsTag t.bits };

    ghost inverse = { λ w. record { bits = bits_of w } };

    ghost inverse_ok = { λ a h. ap (λ (n : ℕ). record { bits = n }) (bits_of-writer_of a.bits h) };
}

impl Event {
    // Whether a tag can name this event.
    fn has_tag(&self) -> bool
        ensures { IsTrue result ↔ HasTag self.now }
    {
        self.thread <= LAST_THREAD && self.step >= 1 && self.step < STEP_END
    }

    /// The tag of this event.
    pub fn tag(&self) -> Tag
        requires { HasTag self.now }
        ensures { result ≡ Some self.now }
    {
        Tag {
            bits: (u32::from(self.thread) + 1) * STEP_END + self.step,
        }
    }
}

impl Tag {
    /// The tag of the initial contents, with the number 0.
    pub const INITIAL: Tag = Tag { bits: 0 };

    /// The tag of a thread's memory step. None exactly where the thread is over 14, or the step is 0 or at least
    /// 2^28.
    pub fn of(thread: u8, step: u32) -> Option<Tag>
        ensures { SomeIff result (HasTag record { thread = thread; step = step }) (Some record { thread = thread; step = step }) }
    {
        let event = Event { thread, step };
        if event.has_tag() {
            Some(event.tag())
        } else {
            None
        }
    }

    /// The tag with this number. None exactly where one of the number's two parts, its high four bits and its low
    /// 28, is 0 and the other isn't.
    pub fn from_bits(bits: u32) -> Option<Tag>
        ensures { SomeIff result (IsTag bits) (writer_of bits) }
    {
        if (bits / STEP_END == 0) == (bits % STEP_END == 0) {
            Some(Tag { bits })
        } else {
            None
        }
    }

    /// The number of the tag: 0 for the initial contents, else the thread's number plus 1 in the high four bits
    /// and the step in the low 28. Equal numbers are those of equal tags.
    pub fn bits(&self) -> u32
        ensures number { result ≡ bits_of self.now }
        ensures back { writer_of result ≡ self.now }
        ensures valid { IsTag result }
    {
        self.bits
    }

    /// The memory step that wrote. None exactly for the initial contents.
    pub fn writer(&self) -> Option<Event>
        ensures value { result ≡ self.now }
        ensures has_tag { IfSome result HasTag }
    {
        if self.bits == 0 {
            return None;
        }
        Some(Event {
            thread: (self.bits / STEP_END) as u8 - 1,
            step: self.bits % STEP_END,
        })
    }
}

/// The value of a word with its writer.
#[derive(Clone, Copy, Debug, PartialEq, Eq)]
pub struct Cell {
    pub value: u32,
    pub tag: Tag,
}

/// The cell as one number: the value in the high 32 bits and the tag's number in the low 32. `unpack` gives the cell
/// back.
pub fn pack(cell: Cell) -> u64
    ensures number { result ≡ packed cell }
    ensures tag { IsTag (result % 2 ^ 32) }
    ensures back { unpacked result ≡ cell }
{
    u64::from(cell.value) * HALF + u64::from(cell.tag.bits())
}

/// The cell with this number, whose low half is the number of a tag. `pack` gives the number back.
pub fn unpack(word: u64) -> Cell
    requires { IsTag (word % 2 ^ 32) }
    ensures cell { result ≡ unpacked word }
    ensures back { packed result ≡ word }
{
    Cell {
        value: (word / HALF) as u32,
        tag: Tag {
            bits: (word % HALF) as u32,
        },
    }
}
