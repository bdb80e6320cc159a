// How the words begin and end: a hand for each thread, and the cells that all hands left.
ghost use Rattle.std.specs.Prelude.{◌≡◌, ℕ, ◌%◌, ◌^◌, ◌<◌, ◌≤◌, None, List, [], map, length, All, IfOk};
ghost use Rattle.std.specs.List.{range_with_len};
ghost use Rattle.std.specs.Mem.Slots.{slots_items, IsFull};
ghost use mathlib.Core.Option.{some};
ghost use lib.ListN.{get_elem?};
ghost use Rattle.light_base.specs.Tags.{IsTag};
ghost use Rattle.light_base.specs.Cells.{packed, unpacked};
ghost use Rattle.replay_model.specs.WordSteps.{WordStep};
ghost use Rattle.tagged_words.specs.Views.{Start};
ghost use Rattle.tagged_words.specs.Rule.{alone, seat_of, HasPart};
ghost use Rattle.tagged_words.specs.Hands.{IsOf, new_hand, HasHand, AreAllSteps};

use crate::rule::{Deals, Gathers, Knowledge, Origin};
use crate::words::{Hand, Words};
use atomic_table::{Closed, Seat, Table};
use light_base::{Cell, Memory, Tag, pack, unpack};
use std::alloc::Global;
use std::snapshot::Snapshot;

impl Words {
    /// Words with these initial values, none of them written yet, and a hand for each of so many threads, numbered from 0
    /// on.
    pub fn open(alloc: Global, initial: &[u32], threads: u8) -> Result<(Words, Vec<Hand>), Memory>
        requires words { (1 ≤ length initial.now) × (length initial.now ≤ 4096) }
        requires threads { (1 ≤ threads) × (threads ≤ 15) }
        ensures start { IfOk result (λ r. r.0.start ≡ record { initial = initial.now; threads = threads }) }
        ensures hands { IfOk result (λ r. r.1.items ≡ map (new_hand r.0) (range_with_len 0 threads)) }
    {
        let contents = packed_values(alloc, initial)?;
        let origin = Origin {
            contents: Snapshot::of(&contents),
            threads,
        };
        let (table, seat) = Table::of_words(alloc, contents.as_slice(), &origin)?;
        let words = Words { table };
        let hands = words.deal(alloc, seat, threads)?;
        Ok((words, hands))
    }

    // A hand for each number that the seat has.
    fn deal(
        &self,
        alloc: Global,
        mut seat: Seat<(), Knowledge>,
        threads: u8,
    ) -> Result<Vec<Hand>, Memory>
        requires own { seat.table_id ≡ self.now.table }
        requires threads { (threads ≡ self.now.start.threads) × (1 ≤ threads) × (threads ≤ 15) }
        requires numbers { seat.me ≡ seat_of self.now.start 0 threads }
        ensures { IfOk result (λ hands. hands.items ≡ map (new_hand self.now) (range_with_len 0 threads)) }
    {
        let mut hands = Vec::new(alloc);
        for thread in 0..threads - 1 {
            let first = self.table.shared.split_seat::<Deals>(&mut seat);
            hands.push(Hand::new(first, thread))?;
        }
        hands.push(Hand::new(seat, threads - 1))?;
        Ok(hands)
    }

    // One seat that has the numbers of all hands.
    fn gather(&self, mut hands: Vec<Hand>) -> Seat<(), Knowledge>
        requires own { All (IsOf self.now) hands.items }
        requires some { 1 ≤ length hands.items }
        ensures own { result.table_id ≡ self.now.table }
        ensures parts { All (HasPart result.me.0) hands.items }
    {
        let Some(last) = hands.pop() else {
            unreachable!()
        };
        let mut seat = last.into_seat();
        while let Some(hand) = hands.pop() {
            let other = hand.into_seat();
            self.table.shared.join_seat::<Gathers>(&mut seat, other);
        }
        seat
    }

    /// The last cells, from all hands. One list of steps leads from the initial cells to them, each hand's list is its
    /// thread's part of it, and no step is of a thread without a hand. After `Memory` the words and the hands are gone.
    pub fn close(self, alloc: Global, hands: Vec<Hand>) -> Result<Vec<Cell>, Memory>
        requires own { All (IsOf self) hands.items }
        requires all { (t : ℕ) → t < self.start.threads → HasHand t hands.items }
        ensures { IfOk result (λ cells. (list : List WordStep) × AreAllSteps self hands.items cells.items list) }
    {
        let seat = self.gather(hands);
        let Words { table } = self;
        let closed = table.close_with(seat);
        let cells = read_all(alloc, &closed);
        closed.free();
        cells
    }
}

impl Hand {
    // The hand of a thread that has taken no step.
    fn new(seat: Seat<(), Knowledge>, thread: u8) -> Hand
        requires seat { seat.me ≡ alone seat.me.0.start thread [] }
        requires thread { (thread < seat.me.0.start.threads) × (seat.me.0.start.threads ≤ 15) }
        ensures { result ≡ new_hand record { table = seat.table_id; start = seat.me.0.start } thread }
    {
        Hand {
            seat,
            thread,
            steps: 0,
        }
    }

    fn into_seat(self) -> Seat<(), Knowledge>
        ensures own { result.table_id ≡ self.words.table }
        ensures knows { result.me ≡ alone self.words.start self.thread self.steps }
    {
        let Hand {
            seat,
            thread: _,
            steps: _,
        } = self;
        seat
    }
}

// The numbers of the initial cells.
fn packed_values(alloc: Global, initial: &[u32]) -> Result<Vec<u64>, Memory>
    ensures { IfOk result (λ contents. contents.items ≡ map (λ v. packed record { value = v; tag = None }) initial.now) }
{
    let contents = initial
        .iter()
        .map(|value| {
            pack(Cell {
                value: *value,
                tag: Tag::INITIAL,
            })
        })
        .collect(alloc)?;
    Ok(contents)
}

// The cells of a table that no thread shares any more.
fn read_all(alloc: Global, closed: &Closed<(), Global>) -> Result<Vec<Cell>, Memory>
    requires full { IsFull closed.now.words }
    requires tags { (i : ℕ) (n : ℕ) → get_elem? (slots_items closed.now.words) i ≡ some n → IsTag (n % 2 ^ 32) }
    ensures { IfOk result (λ cells. cells.items ≡ map unpacked (slots_items closed.now.words)) }
{
    let mut cells = Vec::new(alloc);
    for i in 0..closed.words.len() {
        cells.push(unpack(closed.word(i)))?;
    }
    Ok(cells)
}
