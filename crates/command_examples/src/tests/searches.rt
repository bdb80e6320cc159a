// The exact search of a log, with its memory taken first.
use super::contents::{Content, bytes_of};
use super::histories::{
    CROSSED_LOG, DEAD_END_LOG, EXCHANGES_LOG, FIVE_THREADS_LOG, INITIAL_VALUE_LOG, LOST_UPDATE_LOG,
    NEVER_OVER_LOG, REPLACED_LOG, ROUND_LOG, TWO_DEAD_ENDS_LOG, TWO_READERS_LOG,
};
use super::recordings::{OWN_WRITE_READ_LOG, SMALLEST_LOG};
use constraints::Problem;
use dep_log::RunLog;
use light_base::Event;
use log_file::read_log;
use order_solver::{Answer, Search};
use std::alloc::Global;
use std::process::Abort;
use std::test::Fail;

// A log, the budget of the search, and what it comes to.
pub static SEARCHED: [(Content, u32, &str); 15] = [
    (SMALLEST_LOG, 0, "found"),
    (OWN_WRITE_READ_LOG, 0, "found"),
    (INITIAL_VALUE_LOG, 0, "found"),
    (LOST_UPDATE_LOG, 0, "found"),
    (EXCHANGES_LOG, 0, "found"),
    // The plain search finds an order after two dead ends.
    (FIVE_THREADS_LOG, 2, "found"),
    // Steps would come before each other in a circle, or nobody wrote last.
    (ROUND_LOG, 0, "none"),
    (NEVER_OVER_LOG, 0, "none"),
    // Whichever write comes first, there is a circle, and nothing to go back to.
    (DEAD_END_LOG, 0, "none"),
    (DEAD_END_LOG, 1, "none"),
    (TWO_DEAD_ENDS_LOG, 0, "none"),
    (TWO_DEAD_ENDS_LOG, 2, "none"),
    (TWO_DEAD_ENDS_LOG, u32::MAX, "none"),
    // The first choice leads to a dead end, the other one to one with nothing to go back to.
    (CROSSED_LOG, 0, "spent"),
    (CROSSED_LOG, 1, "none"),
];

fn log_of(rt: &impl Abort, alloc: Global, log: Content) -> Result<RunLog, Fail> {
    let bytes = bytes_of(alloc, log)?;
    assert!(rt; bytes.len() < 4096);
    Ok(read_log(alloc, &bytes).map_err(|_| "this is a log")?)
}

pub fn search(rt: &impl Abort, alloc: Global, row: &(Content, u32, &str)) -> Result<(), Fail> {
    let problem = Problem::of(alloc, &log_of(rt, alloc, row.0)?)?;
    let told = match Search::new(alloc, &problem)?.run(row.1)? {
        Answer::Found(order) => {
            assert_eq!(rt; order.len(), problem.events().len());
            "found"
        }
        Answer::NoSchedule => "none",
        Answer::Spent => "spent",
    };
    assert_eq!(rt; told, row.2);
    Ok(())
}

// Logs, and the numbers of edges of the longer side of each rival pair, summed. An edge from an event to itself is none.
pub static SIDES: [(Content, u64); 6] = [
    (OWN_WRITE_READ_LOG, 0),
    // Three pairs with one edge on each side.
    (FIVE_THREADS_LOG, 3),
    (CROSSED_LOG, 2),
    // Two edges on each side.
    (TWO_READERS_LOG, 2),
    // The later source is a last read of the earlier one.
    (EXCHANGES_LOG, 1),
    (REPLACED_LOG, 1),
];

pub fn count_sides(rt: &impl Abort, alloc: Global) -> Result<(), Fail> {
    for (log, edges) in &SIDES {
        let problem = Problem::of(alloc, &log_of(rt, alloc, *log)?)?;
        assert_eq!(rt; problem.side_edges(), *edges);
    }
    Ok(())
}

// The constraints of the log with five threads, worked out by hand.
pub fn constrain(rt: &impl Abort, alloc: Global) -> Result<(), Fail> {
    let log = log_of(rt, alloc, FIVE_THREADS_LOG)?;
    assert_eq!(rt; (log.threads().len(), log.finals().len()), (5, 3));
    let problem = Problem::of(alloc, &log)?;
    assert_eq!(rt; problem.counts(), [3, 3, 2, 4, 3].as_slice());
    assert_eq!(rt;
        problem.events().get(6),
        Some(&Event { thread: 2, step: 1 })
    );
    assert_eq!(rt; (problem.words(), problem.impossible()), (3, false));
    assert_eq!(rt; problem.sources(0), [3, 6].as_slice());
    assert_eq!(rt; problem.sources(1), [4, 10].as_slice());
    assert_eq!(rt; problem.sources(2), [0, 1].as_slice());
    assert_eq!(rt;
        (problem.sources(0).len(), problem.sources(2).len()),
        (2, 2)
    );
    assert_eq!(rt; problem.lasts(0, 0), [2].as_slice());
    assert_eq!(rt; problem.lasts(0, 1), [8].as_slice());
    assert_eq!(rt; problem.lasts(2, 0), [7].as_slice());
    assert_eq!(rt; problem.lasts(2, 1), [9].as_slice());
    assert_eq!(rt;
        (
            problem.group(0, 1),
            problem.group(0, 2),
            problem.group(2, 0)
        ),
        ((0, 1), (1, 2), (0, 2))
    );
    Ok(())
}

// A log with one entry, of the initial value: its last read comes before the last write of the word, and that is all.
pub fn constrain_least(rt: &impl Abort, alloc: Global) -> Result<(), Fail> {
    let problem = Problem::of(alloc, &log_of(rt, alloc, INITIAL_VALUE_LOG)?)?;
    let events = [Event { thread: 0, step: 1 }, Event { thread: 1, step: 1 }];
    assert_eq!(rt; problem.events(), events.as_slice());
    let [edge] = problem.base() else {
        return Err("one edge".into());
    };
    assert_eq!(rt; (edge.from, edge.to), (0, 1));
    let problem = Problem::of(alloc, &log_of(rt, alloc, NEVER_OVER_LOG)?)?;
    assert!(rt; problem.impossible());
    Ok(())
}
