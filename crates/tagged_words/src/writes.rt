// The atomic steps that may write, in the numbers of cells: what is written is the number of a cell with the tag of the
// step.
ghost use Rattle.std.specs.Prelude.{◌≡◌, ◌+◌, ◌/◌, ◌%◌, ◌^◌, ◌<◌, Some, None, length, Contains};
ghost use Rattle.light_base.specs.Tags.{IsTag, writer_of};
ghost use Rattle.light_base.specs.Cells.{unpacked};
ghost use Rattle.replay_model.specs.declared.Want.TheVariants.{Load, Store, Swap, Cond};
ghost use Rattle.tagged_words.specs.Hands.{HasStepLeft, IsOf, Takes, IsPartOfAll};

use crate::rule::{Conds, Stores, Swaps};
use crate::words::{Hand, Words};

impl Words {
    pub(crate) fn store_number(&self, hand: &mut Hand, word: u16, new: u64)
        requires own { IsOf self.now hand.old }
        requires room { HasStepLeft hand.old }
        requires inside { word < length self.now.start.initial }
        requires tag { IsTag (new % 2 ^ 32) }
        requires by { writer_of (new % 2 ^ 32) ≡ Some record { thread = hand.old.thread; step = length hand.old.steps + 1 } }
        ensures step { Takes hand.old (Store word (new / 2 ^ 32)) None hand.new }
        ensures own { IsOf self.now hand.new }
        ensures part { IsPartOfAll hand.new }
    {
        self.table
            .shared
            .store::<Stores>(&mut hand.seat, usize::from(word), new);
        hand.steps += 1;
    }

    // The number that stood there before.
    pub(crate) fn swap_number(&self, hand: &mut Hand, word: u16, new: u64) -> u64
        requires own { IsOf self.now hand.old }
        requires room { HasStepLeft hand.old }
        requires inside { word < length self.now.start.initial }
        requires tag { IsTag (new % 2 ^ 32) }
        requires by { writer_of (new % 2 ^ 32) ≡ Some record { thread = hand.old.thread; step = length hand.old.steps + 1 } }
        ensures step { Takes hand.old (Swap word (new / 2 ^ 32)) (Some (unpacked result)) hand.new }
        ensures tag { IsTag (result % 2 ^ 32) }
        ensures own { IsOf self.now hand.new }
        ensures part { IsPartOfAll hand.new }
    {
        let found = self
            .table
            .shared
            .swap::<Swaps>(&mut hand.seat, usize::from(word), new);
        hand.steps += 1;
        found
    }

    // The number that stood there before. Where its tag is the one that a load of this hand saw, it is the number of the
    // cell that the load saw, and has become `new`.
    pub(crate) fn compare_exchange_number(
        &self,
        hand: &mut Hand,
        word: u16,
        old: u64,
        new: u64,
    ) -> u64
        requires own { IsOf self.now hand.old }
        requires room { HasStepLeft hand.old }
        requires inside { word < length self.now.start.initial }
        requires old_tag { IsTag (old % 2 ^ 32) }
        requires seen { Contains hand.old.steps record { want = Load word; found = Some (unpacked old) } }
        requires tag { IsTag (new % 2 ^ 32) }
        requires by { writer_of (new % 2 ^ 32) ≡ Some record { thread = hand.old.thread; step = length hand.old.steps + 1 } }
        ensures step { Takes hand.old (Cond word (unpacked old).tag (new / 2 ^ 32)) (Some (unpacked result)) hand.new }
        ensures tag { IsTag (result % 2 ^ 32) }
        ensures same { (unpacked result).tag ≡ (unpacked old).tag → result ≡ old }
        ensures own { IsOf self.now hand.new }
        ensures part { IsPartOfAll hand.new }
    {
        let found = self
            .table
            .shared
            .compare_exchange::<Conds>(&mut hand.seat, usize::from(word), old, new);
        hand.steps += 1;
        found
    }
}
