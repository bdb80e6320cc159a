// What may be shared by threads, and what may move between them.
use dep_log::ThreadLog;
use light_base::{Event, Memory, SinkFault, StoreFault, Tag};
use machine::{Inputs, Limits, Program, RunReport};
use recorder::BrokenGroup;

mod arenas;
mod graphs;
mod groups;
mod growing_logs;
mod images;
mod logs;
mod machines;
mod numbers;
mod outside;
mod programs;
mod recordings;
mod replays;
mod shared_words;
mod texts;
mod thread_recordings;

fn is_shared<T: Send + Sync>() {}

fn is_moved<T: Send>() {}

#[test]
fn values_cross_threads() {
    is_shared::<Program>();
    is_shared::<Limits>();
    is_shared::<Inputs>();
    is_shared::<Memory>();
    is_shared::<Event>();
    is_shared::<Tag>();
    is_shared::<StoreFault>();
    is_shared::<SinkFault>();
    is_moved::<RunReport>();
    is_moved::<ThreadLog>();
    is_moved::<Memory>();
    is_moved::<BrokenGroup>();
}
