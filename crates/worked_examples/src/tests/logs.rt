// The entries of a thread's accesses.
ghost use Rattle.std.specs.Prelude.{◌≡◌, ◌≤◌, IfOk};
ghost use Rattle.dep_log.specs.AccessLogs.{RiseAbove};

use dep_log::{Entry, entries_of};
use light_base::{Cell, Event, Memory, Tag};
use machine::Access;
use std::alloc::Global;
use std::test::Fail;

fn read(step: u32, word: u16, tag: Tag) -> Access
    ensures { result.step ≡ step }
{
    let cell = Cell { value: 7, tag };
    Access {
        step,
        word,
        saw: Some(cell),
        wrote: None,
    }
}

fn entry(word: u16, source: Tag, first: u32, last: u32) -> Entry {
    Entry {
        word,
        source,
        first,
        last,
    }
}

#[test]
fn one_entry_goes_round_another_read(rt: HostRuntime) -> Result<(), Fail> {
    let other = Event { thread: 1, step: 4 }.tag();
    let accesses = [
        read(1, 0, Tag::INITIAL),
        read(3, 1, Tag::INITIAL),
        read(4, 0, Tag::INITIAL),
        read(7, 0, other),
        read(8, 1, Tag::INITIAL),
    ];
    let entries = entries_of(rt.alloc(), &accesses)?;
    let wanted = [
        entry(0, Tag::INITIAL, 1, 4),
        entry(1, Tag::INITIAL, 3, 8),
        entry(0, other, 7, 7),
    ];
    assert_eq!(rt; entries.as_slice(), wanted.as_slice());

    // A store is no read.
    let own = Event { thread: 0, step: 1 }.tag();
    let store = Access {
        step: 1,
        word: 0,
        saw: None,
        wrote: Some(7),
    };
    let entries = entries_of(rt.alloc(), &[store, read(2, 0, own)])?;
    assert_eq!(rt; entries.as_slice(), [entry(0, own, 2, 2)].as_slice());
    Ok(())
}

// A read at each step up to 100,000, of 50 words in turn, which are all written again after every `each` steps.
fn many_reads(alloc: Global, each: u32) -> Result<Vec<Access>, Memory>
    requires { 1 ≤ each }
    ensures { IfOk result (λ accesses. RiseAbove 0 accesses.items) }
{
    let mut accesses = Vec::new(alloc);
    for step in 1..100_001 {
        let writer = Tag::of(1, step / each + 1).unwrap_or(Tag::INITIAL);
        let cell = Cell {
            value: step,
            tag: writer,
        };
        accesses.push(Access {
            step,
            word: (step % 50) as u16,
            saw: Some(cell),
            wrote: None,
        })?;
    }
    Ok(accesses)
}

#[test]
fn many_reads_have_few_entries(rt: HostRuntime) -> Result<(), Fail> {
    let alloc = rt.alloc();
    for (each, count) in [(1, 100_000), (50_000, 101)] {
        let accesses = many_reads(alloc, each)?;
        let entries = entries_of(alloc, &accesses)?;
        assert_eq!(rt; entries.len(), count);
    }
    Ok(())
}
