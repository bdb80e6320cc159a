// `arena`: the summary of an arena that was recorded and replayed, whatever the interleaving.
use super::contents::Content;
use super::rows::{DONE, Row, words_of};
use arena_samples::arena;
use light_base::{MemSink, MemStore};
use light_top::{OpenGate, Status, light};
use machine::write_image;
use std::alloc::Global;
use std::process::Abort;
use std::test::Fail;
use std::thread::Threads;

pub static ARENAS: [Row; 4] = [
    Row {
        words: "arena 7",
        text: Content::Text("arena 7 threads 8 words 24 moves 128/points 400/replay same/"),
        ..DONE
    },
    Row {
        words: "arena 0",
        text: Content::Text("arena 0 threads 8 words 24 moves 128/points 400/replay same/"),
        ..DONE
    },
    Row {
        words: "arena 1",
        text: Content::Text("arena 1 threads 8 words 24 moves 128/points 400/replay same/"),
        ..DONE
    },
    Row {
        words: "arena 4294967295",
        text: Content::Text(
            "arena 4294967295 threads 8 words 24 moves 128/points 400/replay same/",
        ),
        ..DONE
    },
];

// An arena loads nothing and saves nothing, so no call of the store comes. A put that fails leaves what was taken before.
pub static FAULTS: [Row; 2] = [
    Row {
        words: "arena 7",
        calls: &[1],
        text: Content::Text("arena 7 threads 8 words 24 moves 128/points 400/replay same/"),
        ..DONE
    },
    Row {
        words: "arena 7",
        puts: &[2],
        status: "output fault",
        text: Content::Text("arena"),
        ..DONE
    },
];

// Records the arena of a number by these words, and replays the log: both tell the same.
pub fn record_and_replay<R: Abort + Threads + Sync>(
    rt: &R,
    alloc: Global,
    number: u32,
    words: &str,
) -> Result<(), Fail> {
    let mut store = MemStore::new(alloc, Vec::new(alloc));
    let image = write_image(alloc, &arena(alloc, number)?)?;
    store.put_file("i", &image)?;
    let mut recorded = MemSink::new(alloc, 1000, Vec::new(alloc));
    let record = words_of(alloc, words)?;
    let status = light(rt, alloc, &record, &mut store, &mut recorded, &OpenGate);
    assert_eq!(rt; status, Status::Ok, "{}", words);
    let mut replayed = MemSink::new(alloc, 1000, Vec::new(alloc));
    let replay = words_of(alloc, "replay i l s 0")?;
    let status = light(rt, alloc, &replay, &mut store, &mut replayed, &OpenGate);
    assert_eq!(rt; status, Status::Ok, "replay after {}", words);
    assert!(rt; recorded.taken() == replayed.taken(), "{}", words);
    assert!(rt; !recorded.taken().is_empty());
    Ok(())
}
