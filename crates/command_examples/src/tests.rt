// What each command says and leaves, as tables of rows that one helper runs.
use light_base::{MemSink, MemStore};
use light_top::{OpenGate, Status, light, status_text};
use std::test::Fail;

mod arenas;
mod audits;
mod batches;
mod contents;
mod cuts;
mod faults;
mod gates;
mod histories;
mod inputs;
mod litmus;
mod logs;
mod orders;
mod outputs;
mod race_lists;
mod recordings;
mod replays;
mod rows;
mod runs;
mod searches;
mod solves;
mod statuses;
mod stops;
mod texts;
mod told;
mod usages;

use contents::Content;
use rows::{Row, check};

#[test]
fn images_are_played(rt: HostRuntime) -> Result<(), Fail> {
    let alloc = rt.alloc();
    for table in [
        runs::PLAYED.as_slice(),
        runs::REFUSED.as_slice(),
        runs::FAULTS.as_slice(),
    ] {
        for row in table {
            check(&rt, alloc, row)?;
        }
    }
    Ok(())
}

#[test]
fn commands_end_as_told(rt: HostRuntime) -> Result<(), Fail> {
    let alloc = rt.alloc();
    for table in [
        recordings::RECORDED.as_slice(),
        recordings::FAULTS.as_slice(),
        texts::ASSEMBLED.as_slice(),
        texts::LISTED.as_slice(),
        texts::REFUSED.as_slice(),
        texts::FAULTS.as_slice(),
        outputs::OUTPUTS.as_slice(),
        inputs::TAKEN.as_slice(),
        inputs::REFUSED.as_slice(),
        inputs::FAULTS.as_slice(),
    ] {
        for row in table {
            check(&rt, alloc, row)?;
        }
    }
    Ok(())
}

#[test]
fn commands_of_logs_end_as_told(rt: HostRuntime) -> Result<(), Fail> {
    let alloc = rt.alloc();
    for table in [
        logs::SHOWN.as_slice(),
        logs::REFUSED.as_slice(),
        arenas::FAULTS.as_slice(),
        orders::REFUSED.as_slice(),
        orders::STOPPED.as_slice(),
        solves::ONLY.as_slice(),
        solves::STOPPED.as_slice(),
        replays::DIFFERENT.as_slice(),
        replays::OTHER_PROGRAM.as_slice(),
        replays::STOPPED.as_slice(),
        stops::SHOWN.as_slice(),
        stops::STOPPED.as_slice(),
        audits::STOPPED.as_slice(),
        batches::DONE_BY_ALL.as_slice(),
        batches::STOPPED.as_slice(),
    ] {
        for row in table {
            check(&rt, alloc, row)?;
        }
    }
    Ok(())
}

// Each time threads run, and what they do differs; the summary does not.
#[test]
fn arenas_end_with_all_their_points(rt: HostRuntime) -> Result<(), Fail> {
    let alloc = rt.alloc();
    for _ in 0..3 {
        for row in &arenas::ARENAS {
            check(&rt, alloc, row)?;
        }
    }
    Ok(())
}

// With fewer workers than threads a log is a log like any other.
#[test]
fn arenas_on_fewer_workers_are_replayed(rt: HostRuntime) -> Result<(), Fail> {
    let alloc = rt.alloc();
    for number in [0, 7, 4_294_967_295] {
        for words in [
            "record i l 1000000 10000000 16384 3 7",
            "record i l 1000000 10000000 16384 1 1",
            "record i l 1000000 10000000 16384 15 1000",
        ] {
            arenas::record_and_replay(&rt, alloc, number, words)?;
        }
    }
    Ok(())
}

#[test]
fn files_end_too_early(rt: HostRuntime) -> Result<(), Fail> {
    let alloc = rt.alloc();
    for row in &cuts::CUTS {
        cuts::cut_short(&rt, alloc, row)?;
    }
    Ok(())
}

#[test]
fn orders_are_checked(rt: HostRuntime) -> Result<(), Fail> {
    let alloc = rt.alloc();
    for (log, order) in &orders::RESPECTED {
        orders::judge(&rt, alloc, *log, order, "")?;
    }
    for (log, order, kind, i, j) in &orders::FAULTS {
        let status = format!(in alloc; "order refused kind {kind} at {i} {j}")?;
        orders::judge(&rt, alloc, *log, order, status.as_str())?;
    }
    Ok(())
}

#[test]
fn logs_are_solved(rt: HostRuntime) -> Result<(), Fail> {
    let alloc = rt.alloc();
    for (log, events, budget, answers) in &solves::SOLVED {
        solves::solve(&rt, alloc, *log, *events, budget, answers)?;
    }
    Ok(())
}

#[test]
fn logs_are_replayed(rt: HostRuntime) -> Result<(), Fail> {
    let alloc = rt.alloc();
    for (image, log, budget, transcript) in &replays::REPLAYED {
        replays::replay(&rt, alloc, *image, *log, budget, *transcript)?;
    }
    Ok(())
}

#[test]
fn races_are_listed(rt: HostRuntime) -> Result<(), Fail> {
    let alloc = rt.alloc();
    for table in [
        race_lists::LISTED.as_slice(),
        race_lists::STOPPED.as_slice(),
    ] {
        for row in table {
            check(&rt, alloc, row)?;
        }
    }
    race_lists::list_many(&rt, alloc)
}

#[test]
fn words_that_are_no_command(rt: HostRuntime) -> Result<(), Fail> {
    let alloc = rt.alloc();
    for words in usages::USAGES {
        let row = Row {
            words,
            ..usages::NO_COMMAND
        };
        check(&rt, alloc, &row)?;
    }
    let none: [String; 0] = [];
    let mut store = MemStore::new(alloc, Vec::new(alloc));
    let mut out = MemSink::new(alloc, 5, Vec::new(alloc));
    assert_eq!(rt;
        light(&rt, alloc, &none, &mut store, &mut out, &OpenGate),
        Status::Usage
    );
    assert!(rt; out.taken().is_empty());
    Ok(())
}

// Each call of the store and each put fails once, over every command.
#[test]
fn every_fault_is_told(rt: HostRuntime) -> Result<(), Fail> {
    let alloc = rt.alloc();
    for (row, calls) in &faults::COMMANDS {
        faults::check_faults(&rt, alloc, row, *calls)?;
    }
    Ok(())
}

#[test]
fn numbers_and_lines_of_statuses(rt: HostRuntime) -> Result<(), Fail> {
    let alloc = rt.alloc();
    for (status, code, line) in &statuses::statuses() {
        assert_eq!(rt; status.code(), *code);
        let text = status_text(alloc, status)?;
        let line = contents::bytes_of(alloc, Content::Text(line))?;
        assert_eq!(rt; text.as_slice(), line.as_slice());
    }
    Ok(())
}

#[test]
fn threads_pass_the_gate(rt: HostRuntime) -> Result<(), Fail> {
    let alloc = rt.alloc();
    for row in &gates::GATED {
        gates::pass(&rt, alloc, row)?;
    }
    Ok(())
}

#[test]
fn logs_are_audited(rt: HostRuntime) -> Result<(), Fail> {
    let alloc = rt.alloc();
    for (image, log, text) in &audits::LEGAL {
        audits::audit(&rt, alloc, *image, *log, text)?;
    }
    audits::audit_recorded(&rt, alloc)
}

#[test]
fn logs_are_replayed_on_workers(rt: HostRuntime) -> Result<(), Fail> {
    let alloc = rt.alloc();
    for (list, status) in &batches::REFUSED {
        batches::refuse(&rt, alloc, *list, status)?;
    }
    batches::replay_arenas(&rt, alloc)
}

#[test]
fn litmus_tests_hold(rt: HostRuntime) -> Result<(), Fail> {
    let alloc = rt.alloc();
    for test in &litmus::LITMUS {
        litmus::play(&rt, alloc, test)?;
    }
    Ok(())
}

#[test]
fn searches_take_their_memory_first(rt: HostRuntime) -> Result<(), Fail> {
    let alloc = rt.alloc();
    for row in &searches::SEARCHED {
        searches::search(&rt, alloc, row)?;
    }
    searches::count_sides(&rt, alloc)?;
    searches::constrain(&rt, alloc)?;
    searches::constrain_least(&rt, alloc)
}
