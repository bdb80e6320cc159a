// Words that carry their writer: small orders of steps on one thread, and many threads at once.
ghost use Rattle.std.specs.Prelude.{◌≡◌, ℕ, ◌<◌, IfOk, [], ◌∷◌, map, length, vec_len, slice_index_or, All};
ghost use Rattle.tagged_words.specs.Hands.{IsOf, new_hand};

use light_base::{Cell, Event, Memory, Tag};
use replay_model::Access;
use std::alloc::{AllocError, Global};
use std::process::Abort;
use std::test::Fail;
use std::thread;
use std::thread::Threads;
use tagged_words::{Cond, Hand, Words};

const THREADS: u8 = 15;

const ROUNDS: u32 = 200;

const INITIAL: [u32; 2] = [5, 6];

fn written_by(thread: u8, step: u32, value: u32) -> Option<Cell> {
    let tag = Tag::of(thread, step)?;
    Some(Cell { value, tag })
}

// One word with the value 5, and the hands of two threads.
fn opened_pair(alloc: Global) -> Result<(Words, Hand, Hand), Memory>
    ensures words { IfOk result (λ r. r.0.start ≡ record { initial = 5 ∷ []; threads = 2 }) }
    ensures first { IfOk result (λ r. r.1 ≡ new_hand r.0 0) }
    ensures second { IfOk result (λ r. r.2 ≡ new_hand r.0 1) }
{
    let (words, mut hands) = Words::open(alloc, &[5], 2)?;
    let Some(second) = hands.pop() else {
        unreachable!()
    };
    let Some(first) = hands.pop() else {
        unreachable!()
    };
    Ok((words, first, second))
}

// One word with the value 5, and the hand of one thread.
fn opened_alone(alloc: Global) -> Result<(Words, Hand), Memory>
    ensures words { IfOk result (λ r. r.0.start ≡ record { initial = 5 ∷ []; threads = 1 }) }
    ensures hand { IfOk result (λ r. r.1 ≡ new_hand r.0 0) }
{
    let (words, mut hands) = Words::open(alloc, &[5], 1)?;
    let Some(hand) = hands.pop() else {
        unreachable!()
    };
    Ok((words, hand))
}

// The cells that all hands left, which stand at their numbers.
fn closed(alloc: Global, words: Words, hands: Vec<Hand>) -> Result<Vec<Cell>, Memory>
    requires count { length hands.items ≡ words.start.threads }
    requires each { (i : ℕ) (d : _) → i < length hands.items →
        ((slice_index_or hands.items i d).words ≡ words) × ((slice_index_or hands.items i d).thread ≡ i) }
{
    words.close(alloc, hands)
}

// Between a load and a conditional write another thread stores the same value. The tag is another one then.
#[test]
fn an_equal_value_of_another_writer_loses(rt: HostRuntime) -> Result<(), Fail> {
    let alloc = rt.alloc();
    let (words, mut first, mut second) = opened_pair(alloc)?;
    let (cell, seen) = words.load(&mut first, 0);
    assert!(rt; cell.value == 5 && cell.tag == Tag::INITIAL);
    words.store(&mut second, 0, 5);
    let outcome = words.cond(&mut first, &seen, 8);
    let stored = written_by(1, 1, 5).ok_or("no tag")?;
    assert!(rt; outcome == Cond::Lost(stored));
    assert_eq!(rt; (first.steps(), second.steps()), (2, 1));
    let mut hands = Vec::new(alloc);
    hands.push(first)?;
    hands.push(second)?;
    let cells = closed(alloc, words, hands)?;
    assert_eq!(rt; cells.as_slice(), [stored].as_slice());
    Ok(())
}

// With nothing between, a conditional write wins; an exchange then finds its cell.
#[test]
fn a_write_of_what_was_seen_wins(rt: HostRuntime) -> Result<(), Fail> {
    let alloc = rt.alloc();
    let (words, mut hand) = opened_alone(alloc)?;
    let (_, seen) = words.load(&mut hand, 0);
    let outcome = words.cond(&mut hand, &seen, 8);
    assert!(rt; outcome == Cond::Won);
    let before = words.swap(&mut hand, 0, 9);
    assert!(rt; before == written_by(0, 2, 8).ok_or("no tag")?);
    let mut hands = Vec::new(alloc);
    hands.push(hand)?;
    let cells = closed(alloc, words, hands)?;
    let last = written_by(0, 3, 9).ok_or("no tag")?;
    assert_eq!(rt; cells.as_slice(), [last].as_slice());
    Ok(())
}

// A thread's hand after its steps, and the steps as the thread saw them.
#[derive(Drop)]
struct Played {
    hand: Hand,
    accesses: Vec<Access>,
}

// Notes the last step of a hand. Where there is no memory the list is too short, which the test sees.
fn note(accesses: &mut Vec<Access>, hand: &Hand, word: u16, saw: Option<Cell>, wrote: Option<u32>) {
    let _ = accesses.push(Access {
        step: hand.steps(),
        word,
        saw,
        wrote,
    });
}

// All four calls on two words, again and again.
fn play(alloc: Global, words: &Words, mut hand: Hand) -> Played
    requires two { length words.now.start.initial ≡ 2 }
    requires own { IsOf words.now hand }
    requires fresh { length hand.steps ≡ 0 }
    ensures own { IsOf words.now result.hand }
    ensures thread { result.hand.thread ≡ hand.thread }
{
    let mut accesses = Vec::new(alloc);
    for round in 0..ROUNDS {
        let value = u32::from(hand.thread()) * 10_000 + round;
        let (cell, seen) = words.load(&mut hand, 0);
        let loaded = cell;
        note(&mut accesses, &hand, 0, Some(loaded), None);
        match words.cond(&mut hand, &seen, value) {
            Cond::Won => note(&mut accesses, &hand, 0, Some(cell), Some(value)),
            Cond::Lost(found) => note(&mut accesses, &hand, 0, Some(found), None),
        }
        words.store(&mut hand, 1, value);
        note(&mut accesses, &hand, 1, None, Some(value));
        let before = words.swap(&mut hand, 0, value + 5000);
        note(&mut accesses, &hand, 0, Some(before), Some(value + 5000));
        let (other, _) = words.load(&mut hand, 1);
        note(&mut accesses, &hand, 1, Some(other), None);
    }
    Played { hand, accesses }
}

fn play_all<R: Threads + Sync>(
    rt: &R,
    alloc: Global,
    words: &Words,
    hands: Vec<Hand>,
) -> Result<Vec<Played>, AllocError>
    requires two { length words.now.start.initial ≡ 2 }
    requires ready { All (λ hand. IsOf words.now hand × (length hand.steps ≡ 0)) hands.items }
    ensures len { IfOk result (λ v. vec_len v ≡ vec_len hands) }
    ensures each { IfOk result (λ v. (i : ℕ) (d : _) (e : _) → i < length hands.items →
        ((slice_index_or v.items i d).hand.words ≡ words.now) × ((slice_index_or v.items i d).hand.thread ≡ (slice_index_or hands.items i e).thread)) }
{
    thread::map_vec(rt, hands, &|hand| play(alloc, words, hand))
}

// The hands, and what their threads noted.
fn parted(alloc: Global, played: Vec<Played>) -> Result<(Vec<Hand>, Vec<Vec<Access>>), Memory>
    ensures { IfOk result (λ r. r.0.items ≡ map (λ p. p.hand) played.items) }
{
    let mut hands = Vec::new(alloc);
    let mut logs = Vec::new(alloc);
    for one in played {
        let Played { hand, accesses } = one;
        hands.push(hand)?;
        logs.push(accesses)?;
    }
    Ok((hands, logs))
}

// What each thread did, and the cells that all of them left.
fn play_on_two<R: Threads + Sync>(
    rt: &R,
    alloc: Global,
) -> Result<(Vec<Vec<Access>>, Vec<Cell>), Memory> {
    let (words, hands) = Words::open(alloc, &INITIAL, THREADS)?;
    let played = play_all(rt, alloc, &words, hands)?;
    let (hands, logs) = parted(alloc, played)?;
    let cells = closed(alloc, words, hands)?;
    Ok((logs, cells))
}

// Whether the cell was there from the start, or some thread noted that it wrote it.
fn was_written(logs: &[Vec<Access>], word: u16, cell: Cell) -> bool {
    let Some(event) = cell.tag.writer() else {
        return INITIAL.get(usize::from(word)) == Some(&cell.value);
    };
    let Some(log) = logs.get(usize::from(event.thread)) else {
        return false;
    };
    let Some(access) = log.get(event.step as usize - 1) else {
        return false;
    };
    access.word == word && access.wrote == Some(cell.value)
}

// The numbers of the tags that writing steps found in word 0 and of the one that they left there, and those of the tags
// that stood there. Each tag but the last was found by one such step alone, since all writes to word 0 are exchanges.
fn chain(alloc: Global, logs: &[Vec<Access>], last: Tag) -> Result<(Vec<u32>, Vec<u32>), Memory> {
    let mut found = Vec::new(alloc);
    let mut stood = Vec::new(alloc);
    found.push(last.bits())?;
    stood.push(Tag::INITIAL.bits())?;
    for (thread, log) in (0u8..).zip(logs) {
        for access in log
            .iter()
            .filter(|access| access.word == 0 && access.wrote.is_some())
        {
            if let Some(cell) = access.saw {
                found.push(cell.tag.bits())?;
            }
            if let Some(tag) = Tag::of(thread, access.step) {
                stood.push(tag.bits())?;
            }
        }
    }
    found.sort_unstable();
    stood.sort_unstable();
    Ok((found, stood))
}

// Whether the thread read a source of the word again after it had read another.
fn comes_back(alloc: Global, log: &[Access], word: u16) -> Result<bool, Memory> {
    let mut sources: Vec<u32> = Vec::new(alloc);
    for access in log.iter().filter(|access| access.word == word) {
        if let Some(cell) = access.saw {
            let source = cell.tag.bits();
            if sources.last() != Some(&source) {
                if sources.contains(&source) {
                    return Ok(true);
                }
                sources.push(source)?;
            }
        }
    }
    Ok(false)
}

fn check_log(
    rt: &impl Abort,
    alloc: Global,
    logs: &[Vec<Access>],
    log: &[Access],
) -> Result<(), Memory> {
    assert_eq!(rt; log.len(), 5 * ROUNDS as usize);
    for (access, step) in log.iter().zip(1u32..) {
        assert_eq!(rt; access.step, step);
        if let Some(cell) = access.saw {
            assert!(rt;
                was_written(logs, access.word, cell),
                "a cell that nobody wrote"
            );
        }
    }
    assert!(rt;
        !comes_back(alloc, log, 0)? && !comes_back(alloc, log, 1)?,
        "a source came back"
    );
    Ok(())
}

// Fifteen threads take steps of all four kinds on two words.
#[test]
fn what_fifteen_threads_found_was_written(rt: HostRuntime) -> Result<(), Fail> {
    let alloc = rt.alloc();
    let (logs, cells) = play_on_two(&rt, alloc)?;
    assert_eq!(rt; (logs.len(), cells.len()), (15, 2));
    for log in &logs {
        check_log(&rt, alloc, &logs, log)?;
    }
    for (cell, word) in cells.iter().zip(0u16..) {
        assert!(rt; was_written(&logs, word, *cell), "a cell that nobody wrote");
    }
    let (found, stood) = chain(alloc, &logs, cells[0].tag)?;
    assert!(rt; found == stood, "a cell was exchanged twice, or never");
    Ok(())
}
