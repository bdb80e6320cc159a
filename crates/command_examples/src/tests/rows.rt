// A row of a table, and the helper that runs it.
use super::contents::{Content, bytes_of};
use super::told::told;
use light_base::{MemSink, MemStore};
use light_top::{Gate, OpenGate, light};
use std::alloc::{AllocError, Global};
use std::process::Abort;
use std::test::Fail;
use std::thread::Threads;

// A command, the files that it finds, the calls of the store and the puts that fail, and how it ends: its status as `told` says
// it, what it printed, and the files that changed. All other files stay.
#[derive(Clone, Copy)]
pub struct Row {
    pub words: &'static str,
    pub files: &'static [(&'static str, Content)],
    pub calls: &'static [u64],
    pub puts: &'static [u64],
    pub status: &'static str,
    pub text: Content,
    pub after: &'static [(&'static str, Content)],
}

// What a row need not tell: nothing is there, nothing fails, nothing is printed and nothing changes.
pub const DONE: Row = Row {
    words: "",
    files: &[],
    calls: &[],
    puts: &[],
    status: "",
    text: Content::Text(""),
    after: &[],
};

// The words of a line, with one space between two.
pub fn words_of(alloc: Global, line: &str) -> Result<Vec<String>, AllocError> {
    let mut all = Vec::new(alloc);
    for word in line.split(' ') {
        all.push(String::from_str(alloc, word)?)?;
    }
    Ok(all)
}

// Whether the file has this content.
pub fn holds(
    alloc: Global,
    store: &MemStore,
    name: &str,
    content: Content,
) -> Result<bool, AllocError> {
    match content {
        Content::Absent => Ok(store.file(name).is_none()),
        _ => Ok(store.file(name) == Some(bytes_of(alloc, content)?.as_slice())),
    }
}

// A store with these files, of which no call fails.
pub fn store_of(alloc: Global, files: &[(&'static str, Content)]) -> Result<MemStore, Fail> {
    let mut store = MemStore::new(alloc, Vec::new(alloc));
    for (name, content) in files {
        store.put_file(name, &bytes_of(alloc, *content)?)?;
    }
    Ok(store)
}

// How the command of a line ends under a gate, as `told` says it, and what it prints.
pub fn call_under<R: Abort + Threads + Sync, G: Gate>(
    rt: &R,
    alloc: Global,
    store: &mut MemStore,
    line: &str,
    gate: &G,
) -> Result<(String, Vec<u8>), Fail> {
    let words = words_of(alloc, line)?;
    let mut out = MemSink::new(alloc, 5, Vec::new(alloc));
    let status = light(rt, alloc, &words, store, &mut out, gate);
    let text = Vec::from_slice(alloc, out.taken())?;
    Ok((told(alloc, &status)?, text))
}

// The same under a gate that holds nothing.
pub fn call<R: Abort + Threads + Sync>(
    rt: &R,
    alloc: Global,
    store: &mut MemStore,
    line: &str,
) -> Result<(String, Vec<u8>), Fail> {
    call_under(rt, alloc, store, line, &OpenGate)
}

// Runs a row's command, and looks at what it left. A put takes at most five bytes.
pub fn check<R: Abort + Threads + Sync>(rt: &R, alloc: Global, row: &Row) -> Result<(), Fail> {
    let mut store = MemStore::new(alloc, Vec::from_slice(alloc, row.calls)?);
    let mut out = MemSink::new(alloc, 5, Vec::from_slice(alloc, row.puts)?);
    for (name, content) in row.files {
        store.put_file(name, &bytes_of(alloc, *content)?)?;
    }
    let words = words_of(alloc, row.words)?;
    let status = light(rt, alloc, &words, &mut store, &mut out, &OpenGate);
    assert_eq!(rt; told(alloc, &status)?.as_str(), row.status, "{}", row.words);
    let text = bytes_of(alloc, row.text)?;
    assert!(rt; out.taken() == text.as_slice(), "{}", row.words);
    for (name, content) in row.files {
        if !row.after.iter().any(|(changed, _)| *changed == *name) {
            assert!(rt;
                holds(alloc, &store, name, *content)?,
                "{} of {}",
                name,
                row.words
            );
        }
    }
    for (name, content) in row.after {
        assert!(rt;
            holds(alloc, &store, name, *content)?,
            "{} of {}",
            name,
            row.words
        );
    }
    Ok(())
}
