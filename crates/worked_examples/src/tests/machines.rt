// One thread's core, and the machine that takes turns on one thread.
use super::programs::program_of;
use history::{Plain, Stepped};
use light_base::{Cell, Event, Tag};
use machine::{Access, Core, End, Inputs, Limits, Want};
use std::test::Fail;

#[test]
fn cores_go_on_to_their_ends(rt: HostRuntime) -> Result<(), Fail> {
    let alloc = rt.alloc();
    let limits = Limits::new(10, 10, 10).ok_or("these are limits")?;
    let halts = program_of(&rt, alloc, ".words 1/.thread/halt")?;
    assert_eq!(rt; halts.threads_count(), 1);
    let mut core = Core::new(alloc, 0);
    assert_eq!(rt; core.go(&halts, &limits, false)?, Want::Ended(End::Halted));
    assert_eq!(rt;
        (core.steps(), core.instr(), core.outputs().len()),
        (0, 0, 0)
    );

    let tells = program_of(&rt, alloc, ".words 1/.thread/set r1 7/out r1/jmp 0")?;
    assert_eq!(rt; tells.threads_count(), 1);
    let mut core = Core::new(alloc, 0);
    assert_eq!(rt;
        core.go(&tells, &limits, false)?,
        Want::Ended(End::InstrSpent)
    );
    assert_eq!(rt; core.outputs(), [7, 7, 7].as_slice());
    assert_eq!(rt;
        *core.registers(),
        [0, 7, 0, 0, 0, 0, 0, 0, 0, 0, 0, 0, 0, 0, 0, 0]
    );
    Ok(())
}

// Thread 0 reads the initial value, and then thread 1 stores.
#[test]
fn turns_are_taken_one_by_one(rt: HostRuntime) -> Result<(), Fail> {
    let alloc = rt.alloc();
    let text = ".words 1/.init 0 5/.thread/load r1 r0 0/out r1/.thread/set r1 9/store r1 r0 0";
    let program = program_of(&rt, alloc, text)?;
    assert_eq!(rt; program.threads_count(), 2);
    let limits = Limits::new(100, 100, 100).ok_or("these are limits")?;
    let inputs = Inputs::none(alloc, 2)?;
    let mut plain = Plain::new(alloc, &program, limits, &inputs)?;
    let read = Access {
        step: 1,
        word: 0,
        saw: Some(Cell {
            value: 5,
            tag: Tag::INITIAL,
        }),
        wrote: None,
    };
    assert_eq!(rt; plain.step(0)?, Stepped::Took(read));
    assert_eq!(rt; plain.step(0)?, Stepped::Ended(End::Halted));
    plain.turns()?;
    assert_eq!(rt; plain.taken(), [0, 1].as_slice());
    assert_eq!(rt; plain.accesses(0), [read].as_slice());
    let tag = Event { thread: 1, step: 1 }.tag();
    assert_eq!(rt; plain.cells(), [Cell { value: 9, tag }].as_slice());
    let reports = plain.into_reports()?;
    let [first, second] = reports.as_slice() else {
        return Err("two threads".into());
    };
    assert_eq!(rt; (first.output(), second.instr()), ([5].as_slice(), 2));
    Ok(())
}

#[test]
fn inputs_may_be_empty(rt: HostRuntime) -> Result<(), Fail> {
    let inputs = Inputs::none(rt.alloc(), 1)?;
    assert_eq!(rt; (inputs.threads_count(), inputs.threads(0).len()), (1, 0));
    let lists = inputs.into_parts();
    assert_eq!(rt;
        (lists.len(), lists.iter().all(|list| list.is_empty())),
        (1, true)
    );
    Ok(())
}
