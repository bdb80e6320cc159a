// The rule of the shared words over their table, and the kinds of steps. No value of what a seat knows is ever made.
use atomic_table::{Join, Play, Split, TableRule};
use std::marker::Model;
use std::snapshot::Snapshot;

/// What a seat knows: how the words began, and for each thread whose number it has the list of the thread's steps.
pub(crate) struct Knowledge;

impl Model for Knowledge {
    ghost use Rattle.tagged_words.specs.Views.{View};

    ghost Value = { View };

    ghost use Rattle.tagged_words.specs.Rule.{spent};

    ghost view = { λ _. spent };
}

/// How the words begin: their contents, and the number of threads. It is seen as the initial values and that number.
#[derive(Drop)]
pub(crate) struct Origin {
    pub(crate) contents: Snapshot<Vec<u64>>,
    pub(crate) threads: u8,
}

impl Model for Origin {
    ghost use Rattle.std.specs.Prelude.{◌/◌, ◌^◌, map};
    ghost use Rattle.tagged_words.specs.Views.{Start};

    ghost Value = { Start };

    ghost view = { λ o. record { initial = map (λ n. n / 2 ^ 32) o.contents.value.items; threads = o.threads } };
}

/// One list of steps leads from the initial cells to the words, and each thread knows its part of that list.
pub(crate) struct OneList;

impl TableRule<(), Knowledge, Origin> for OneList {
    ghost use Rattle.tagged_words.specs.Rule.{Recorded, everyone};

    ghost holds = { Recorded };

    ghost first = { everyone };
}

pub(crate) struct Loads;

impl Play<(), Knowledge> for Loads {
    ghost use Rattle.tagged_words.specs.Rule.{loads};

    ghost then = { loads };
}

pub(crate) struct Stores;

impl Play<(), Knowledge> for Stores {
    ghost use Rattle.tagged_words.specs.Rule.{stores};

    ghost then = { stores };
}

pub(crate) struct Swaps;

impl Play<(), Knowledge> for Swaps {
    ghost use Rattle.tagged_words.specs.Rule.{swaps};

    ghost then = { swaps };
}

pub(crate) struct Conds;

impl Play<(), Knowledge> for Conds {
    ghost use Rattle.tagged_words.specs.Rule.{conds};

    ghost then = { conds };
}

/// The first number of a seat goes to a new one.
pub(crate) struct Deals;

impl Split<Knowledge> for Deals {
    ghost use Rattle.tagged_words.specs.Rule.{first_part, other_parts};

    ghost left = { other_parts };

    ghost right = { first_part };
}

/// The numbers of a seat go to another.
pub(crate) struct Gathers;

impl Join<Knowledge> for Gathers {
    ghost use Rattle.tagged_words.specs.Rule.{joined, spent};

    ghost both = { joined };

    ghost spent = { spent };
}
