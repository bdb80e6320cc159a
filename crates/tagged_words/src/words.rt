// The words and the threads' tokens, with the four atomic steps.
ghost use Rattle.std.specs.Prelude.{◌≡◌, ◌+◌, ◌/◌, ◌%◌, ◌^◌, ◌<◌, Some, None, length};
ghost use Rattle.light_base.specs.Tags.{IsTag, writer_of};
ghost use Rattle.replay_model.specs.declared.Want.TheVariants.{Load, Store, Swap};
ghost use Rattle.tagged_words.specs.Hands.{HasStepLeft};

use crate::rule::{Knowledge, Loads, OneList, Origin};
use atomic_table::{Seat, Table};
use light_base::{Cell, Event, pack, unpack};
use std::alloc::Global;
use std::marker::Model;

/// Words that threads share. Each carries the tag of the memory step that wrote it.
///
/// They are seen as their initial values and the number of threads, which never change.
#[derive(Drop)]
pub struct Words {
    pub(crate) table: Table<(), Knowledge, Origin, OneList, Global>,
}

impl Model for Words {
    ghost use Rattle.tagged_words.specs.Views.{SharedWords};

    ghost Value = { SharedWords };

    ghost use Rattle.tagged_words.specs.Rule.{IsTable};

    ghost view = { λ w. record { table = w.table.shared.table_id; start = w.table.shared.key } };

    ghost invariant = { λ w. IsTable w.table.shared.table_id w.table.shared.key };
}

/// A thread's token for its steps at the words.
///
/// It is seen as its words, the thread's number and the list of the thread's steps. The list takes no memory.
#[derive(Drop)]
pub struct Hand {
    pub(crate) seat: Seat<(), Knowledge>,
    pub(crate) thread: u8,
    pub(crate) steps: u32,
}

impl Model for Hand {
    ghost use Rattle.tagged_words.specs.Views.{Progress};

    ghost Value = { Progress };

    ghost use Rattle.tagged_words.specs.Rule.{IsSeated, progress_of};

    ghost view = { λ h. progress_of h.seat.table_id h.seat.me h.thread };

    ghost invariant = { λ h. IsSeated h.seat.me h.thread h.steps };
}

/// What a load gave: the number of its step, its word and the cell that stood there.
#[derive(Clone, Copy, Debug, PartialEq, Eq)]
pub struct Seen {
    step: u32,
    word: u16,
    cell: Cell,
}

/// What became of a conditional write.
#[derive(Clone, Copy, Debug, PartialEq, Eq)]
pub enum Cond {
    /// The word still had the cell that was seen, and has the new value now.
    Won,
    /// The word had this cell, whose tag is not the one seen. Nothing was written.
    Lost(Cell),
}

impl Seen {
    /// The cell that stood there.
    pub fn cell(&self) -> Cell
        ensures { result ≡ self.now.cell }
    {
        self.cell
    }
}

impl Hand {
    /// The thread's number, from 0.
    pub fn thread(&self) -> u8
        ensures { result ≡ self.now.thread }
    {
        self.thread
    }

    /// How many steps the thread has taken.
    pub fn steps(&self) -> u32
        ensures { result ≡ length self.now.steps }
    {
        self.steps
    }

    // The number of the cell that the next step writes.
    fn next_number(&self, value: u32) -> u64
        requires { HasStepLeft self.now }
        ensures tag { IsTag (result % 2 ^ 32) }
        ensures by { writer_of (result % 2 ^ 32) ≡ Some record { thread = self.now.thread; step = length self.now.steps + 1 } }
        ensures value { result / 2 ^ 32 ≡ value }
    {
        let event = Event {
            thread: self.thread,
            step: self.steps + 1,
        };
        let tag = event.tag();
        pack(Cell { value, tag })
    }
}

impl Words {
    ghost use Rattle.tagged_words.specs.Hands.{IsOf, Takes, IsPartOfAll, IsSeenBy, CondGives};

    /// The cell of a word, value and tag of one moment.
    #[tactic(auto, using(crate::proofs::Seats::last_step))]
    pub fn load(&self, hand: &mut Hand, word: u16) -> (Cell, Seen)
        requires own { IsOf self.now hand.old }
        requires room { HasStepLeft hand.old }
        requires inside { word < length self.now.start.initial }
        ensures step { Takes hand.old (Load word) (Some result.0) hand.new }
        ensures seen { result.1 ≡ record { step = length hand.new.steps; word = word; cell = result.0 } }
        ensures given { IsSeenBy hand.new result.1 }
        ensures own { IsOf self.now hand.new }
        ensures thread { hand.new.thread ≡ hand.old.thread }
        ensures count { length hand.new.steps ≡ length hand.old.steps + 1 }
        ensures part { IsPartOfAll hand.new }
    {
        let found = self
            .table
            .shared
            .load::<Loads>(&mut hand.seat, usize::from(word));
        hand.steps += 1;
        let cell = unpack(found);
        let again = cell;
        let seen = Seen {
            step: hand.steps,
            word,
            cell: again,
        };
        (cell, seen)
    }

    /// Writes the value with the tag of this step.
    pub fn store(&self, hand: &mut Hand, word: u16, value: u32)
        requires own { IsOf self.now hand.old }
        requires room { HasStepLeft hand.old }
        requires inside { word < length self.now.start.initial }
        ensures step { Takes hand.old (Store word value) None hand.new }
        ensures own { IsOf self.now hand.new }
        ensures thread { hand.new.thread ≡ hand.old.thread }
        ensures count { length hand.new.steps ≡ length hand.old.steps + 1 }
        ensures part { IsPartOfAll hand.new }
    {
        let new = hand.next_number(value);
        self.store_number(hand, word, new);
    }

    /// Writes the value with the tag of this step, and gives the cell that stood there before.
    pub fn swap(&self, hand: &mut Hand, word: u16, value: u32) -> Cell
        requires own { IsOf self.now hand.old }
        requires room { HasStepLeft hand.old }
        requires inside { word < length self.now.start.initial }
        ensures step { Takes hand.old (Swap word value) (Some result) hand.new }
        ensures own { IsOf self.now hand.new }
        ensures thread { hand.new.thread ≡ hand.old.thread }
        ensures count { length hand.new.steps ≡ length hand.old.steps + 1 }
        ensures part { IsPartOfAll hand.new }
    {
        let new = hand.next_number(value);
        unpack(self.swap_number(hand, word, new))
    }

    /// Writes the value with the tag of this step where the word that was loaded still has the tag that was seen, which
    /// is where it still has the cell that was seen.
    pub fn cond(&self, hand: &mut Hand, seen: &Seen, value: u32) -> Cond
        requires own { IsOf self.now hand.old }
        requires room { HasStepLeft hand.old }
        requires inside { seen.now.word < length self.now.start.initial }
        requires seen { IsSeenBy hand.old seen.now }
        ensures step { CondGives hand.old seen.now value result hand.new }
        ensures own { IsOf self.now hand.new }
        ensures thread { hand.new.thread ≡ hand.old.thread }
        ensures count { length hand.new.steps ≡ length hand.old.steps + 1 }
        ensures part { IsPartOfAll hand.new }
    {
        let old = pack(seen.cell);
        let new = hand.next_number(value);
        let found = self.compare_exchange_number(hand, seen.word, old, new);
        if found == old {
            Cond::Won
        } else {
            Cond::Lost(unpack(found))
        }
    }
}

// Threads share the words, and a hand may move to the thread that it is for.
fn crosses(words: &Words, hand: Hand) -> Hand {
    is_shared(words);
    is_moved(hand)
}

fn is_shared<T: Send + Sync>(_: &T) {}

fn is_moved<T: Send>(value: T) -> T {
    value
}
