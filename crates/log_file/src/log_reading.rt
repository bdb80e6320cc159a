// Reading a log.
ghost use Rattle.std.specs.Prelude.{◌≡◌, ◌≢◌, ◌↔◌, ℕ, ◌+◌, ◌*◌, ◌^◌, ◌<◌, ◌≤◌, List, ◌++◌, All, length, slice_range, Ok, Err, IfOk, IfErr, OnOk, MatchResult};
ghost use Rattle.light_base.specs.Numbers.{IsBytes};
ghost use Rattle.replay_model.specs.Logs.{Log};
ghost use Rattle.log_file.specs.declared.version.Version.TheVariants.{One, Two};
ghost use Rattle.log_file.specs.declared.log_fault.LogKind.TheVariants.{Memory, Long};
ghost use Rattle.log_file.specs.LogFaults.{fault, out_of_memory};
ghost use Rattle.log_file.specs.Spelling.{IsText};
ghost use Rattle.log_file.specs.Seen.{IsKept};
ghost use Rattle.log_file.specs.Versions.{head_len};
ghost use Rattle.log_file.specs.LogReading.{Gives, IsSmall, tag_in, entry_at, entries_at, last_tags_in, thread_at, threads_in};
ghost use Rattle.log_file.specs.LogReading.{steps_of, header_entries, header_taken, body_in, log_read, log_with};

use crate::heads::{Head, Header, head_of, headers_of, reaches};
use crate::log_fault::{LogFault, LogKind};
use crate::numbers::{half_at, number_at};
use crate::places::{entries_place, last_tags_place, log_end, taken_place};
use crate::seen::Seen;
use crate::version::Version;
use dep_log::{RunLog, ThreadLog};
use light_base::Tag;
use machine::{Limits, numbers_of};
use replay_model::Entry;
use std::alloc::{AllocError, Global};

// How many memory steps each thread took.
fn steps_of(alloc: Global, headers: &[Header]) -> Result<Vec<u32>, AllocError>
    ensures { IfOk result (λ steps. steps.items ≡ steps_of headers.now) }
{
    headers.iter().map(|header| header.steps).collect(alloc)
}

// The tag with this number, where the threads took so many steps.
#[tactic(auto, unfolding(crate::specs::LogReading::tag_in))]
fn tag_in(steps: &[u32], bits: u32) -> Option<Tag>
    ensures { result ≡ tag_in steps.now bits }
{
    let tag = Tag::from_bits(bits)?;
    match tag.writer() {
        None => Some(tag),
        Some(event) => match steps.get(usize::from(event.thread)) {
            Some(last) if event.step > 0 && event.step <= *last => Some(tag),
            _ => None,
        },
    }
}

// The last tags of so many words, from a place on.
fn last_tags_of(
    alloc: Global,
    steps: &[u32],
    bytes: &[u8],
    at: usize,
    words: usize,
) -> Result<Vec<Tag>, LogFault>
    requires few { length bytes.now < 2 ^ 32 }
    requires there { at + 4 * words ≤ length bytes.now }
    ensures { Gives (λ last_tags. last_tags.items) result (last_tags_in steps.now bytes.now at words) }
{
    let mut last_tags = Vec::with_capacity(alloc, words)?;
    for word in 0..words {
        let place = at + 4 * word;
        match tag_in(steps, number_at(bytes, place)) {
            Some(tag) => last_tags.push(tag)?,
            None => return Err(LogFault::new(LogKind::Source, place)),
        }
    }
    Ok(last_tags)
}

// The entry at a place, of a thread that took `own` steps, after those that were seen of it.
#[tactic(auto, unfolding(crate::specs::LogReading::entry_of))]
fn entry_at(
    steps: &[u32],
    own: u32,
    bytes: &[u8],
    at: usize,
    seen: &Seen,
) -> Result<Entry, LogFault>
    requires few { length bytes.now < 2 ^ 32 }
    requires there { at + 14 ≤ length bytes.now }
    requires kept { IsKept seen.now }
    ensures value { result ≡ entry_at (length seen.now.ends.items) steps.now own bytes.now at seen.now.entries.items }
    ensures word { IfOk result (λ entry. entry.word < length seen.now.ends.items) }
{
    let word = half_at(bytes, at);
    let first = number_at(bytes, at + 6);
    let last = number_at(bytes, at + 10);
    if first <= seen.newest_first() {
        return Err(LogFault::new(LogKind::Order, at));
    }
    if last < first || own < last {
        return Err(LogFault::new(LogKind::Range, at));
    }
    let Some(source) = tag_in(steps, number_at(bytes, at + 2)) else {
        return Err(LogFault::new(LogKind::Source, at));
    };
    if !seen.has_word(word) {
        return Err(LogFault::new(LogKind::Word, at));
    }
    if seen.has_entry(word, source) {
        return Err(LogFault::new(LogKind::Twice, at));
    }
    if seen.ends_late(word, first) {
        return Err(LogFault::new(LogKind::Overlap, at));
    }
    Ok(Entry {
        word,
        source,
        first,
        last,
    })
}

// So many entries of a thread that took `own` steps, from a place on.
fn entries_of(
    alloc: Global,
    words: usize,
    steps: &[u32],
    own: u32,
    bytes: &[u8],
    at: usize,
    count: usize,
) -> Result<Vec<Entry>, LogFault>
    requires few { length bytes.now < 2 ^ 32 }
    requires there { at + 14 * count ≤ length bytes.now }
    ensures value { Gives (λ entries. entries.items) result (entries_at words steps.now own bytes.now at count) }
    ensures count { IfOk result (λ entries. length entries.items ≡ count) }
{
    let mut seen = Seen::new(alloc, words, count)?;
    for i in 0..count {
        let entry = entry_at(steps, own, bytes, at + 14 * i, &seen)?;
        seen.push(entry)?;
    }
    Ok(seen.entries)
}

// The log of the thread with this header: its entries begin at one place, and its input numbers at another.
#[tactic(auto, unfolding(crate::specs::LogReading::thread_at))]
fn thread_at(
    alloc: Global,
    words: usize,
    steps: &[u32],
    header: &Header,
    bytes: &[u8],
    at: usize,
    from: usize,
) -> Result<ThreadLog, LogFault>
    requires few { length bytes.now < 2 ^ 32 }
    requires entries { at + 14 * header.now.entries ≤ length bytes.now }
    requires taken { from + 4 * header.now.taken ≤ length bytes.now }
    ensures value { Gives (λ thread. thread) result (thread_at words steps.now header.now bytes.now at from) }
    ensures entries { IfOk result (λ thread. length thread.entries ≡ header.now.entries) }
    ensures taken { IfOk result (λ thread. length thread.taken ≡ header.now.taken) }
{
    let entries = entries_of(
        alloc,
        words,
        steps,
        header.steps,
        bytes,
        at,
        header.entries as usize,
    )?;
    let taken = numbers_of(alloc, header.taken as usize, &bytes[from..])?;
    Ok(ThreadLog::new(entries, header.steps, header.instr, header.end, taken))
}

// The logs of the threads with these headers: all entries begin at one place, and all input numbers at another.
fn threads_of(
    alloc: Global,
    words: usize,
    steps: &[u32],
    headers: &[Header],
    bytes: &[u8],
    entries_place: usize,
    taken_place: usize,
) -> Result<Vec<ThreadLog>, LogFault>
    requires few { length bytes.now < 2 ^ 32 }
    requires steps { steps.now ≡ steps_of headers.now }
    requires entries { entries_place + 14 * header_entries headers.now ≤ length bytes.now }
    requires taken { taken_place + 4 * header_taken headers.now ≤ length bytes.now }
    ensures { Gives (λ threads. threads.items) result (threads_in words headers.now bytes.now entries_place taken_place) }
{
    let mut threads = Vec::with_capacity(alloc, headers.len())?;
    let mut at = entries_place;
    let mut from = taken_place;
    for header in headers {
        let thread = thread_at(alloc, words, steps, header, bytes, at, from)?;
        threads.push(thread)?;
        at += 14 * header.entries as usize;
        from += 4 * header.taken as usize;
    }
    Ok(threads)
}

// The threads' logs and the last tags behind these headers, with nothing behind them.
fn body_of(
    alloc: Global,
    version: Version,
    head: &Head,
    headers: &[Header],
    bytes: &[u8],
) -> Result<(Vec<ThreadLog>, Vec<Tag>), LogFault>
    requires few { length bytes.now < 2 ^ 32 }
    requires threads { head.now.threads ≤ 15 }
    requires words { head.now.words ≤ 4096 }
    requires count { length headers.now ≡ head.now.threads }
    requires small { All IsSmall headers.now }
    ensures { Gives (λ parts. log_with bytes.now head.now.limits parts.0.items parts.1.items) result (body_in version head.now headers.now bytes.now) }
{
    let end = log_end(version, head, headers);
    reaches(bytes, end)?;
    let steps = steps_of(alloc, headers)?;
    let last_tags = last_tags_of(
        alloc,
        &steps,
        bytes,
        last_tags_place(version, head),
        head.words,
    )?;
    let threads = threads_of(
        alloc,
        head.words,
        &steps,
        headers,
        bytes,
        entries_place(version, head),
        taken_place(version, head, headers),
    )?;
    if end < bytes.len() {
        return Err(LogFault::new(LogKind::Long, end));
    }
    Ok((threads, last_tags))
}

// The parts of the log that the bytes tell in a version: the limits, the threads' logs and the last tags.
#[tactic(auto, unfolding(crate::specs::LogReading::log_read))]
fn parts_of(
    alloc: Global,
    version: Version,
    bytes: &[u8],
) -> Result<(Limits, Vec<ThreadLog>, Vec<Tag>), LogFault>
    requires { length bytes.now < 2 ^ 32 }
    ensures read { Gives (λ parts. log_with bytes.now parts.0 parts.1.items parts.2.items) result (log_read version bytes.now) }
    ensures there { OnOk result (head_len ≤ length bytes.now) }
{
    let head = head_of(version, bytes)?;
    reaches(bytes, last_tags_place(version, &head))?;
    let headers = headers_of(alloc, version, &head, bytes)?;
    let (threads, last_tags) = body_of(alloc, version, &head, &headers, bytes)?;
    Ok((head.limits, threads, last_tags))
}

// The digest in a log that is long enough to have one.
fn digest_in(bytes: &[u8]) -> [u8; 32]
    requires { head_len ≤ length bytes.now }
    ensures { result ≡ slice_range bytes.now 7 39 }
{
    let mut digest = [0; 32];
    digest.copy_from_slice(&bytes[7..39]);
    digest
}

// The log that the bytes tell in a version.
fn read_as(alloc: Global, version: Version, bytes: &[u8]) -> Result<RunLog, LogFault>
    requires { length bytes.now < 2 ^ 32 }
    ensures found { IfOk result (λ log. IsText version bytes.now log) }
    ensures only { (log : Log) → IsText version bytes.now log → MatchResult result (λ read. read ≡ log) (λ e. e ≡ out_of_memory) }
    ensures refused { IfErr result (λ e. e.kind ≢ Memory → (log : Log) → ¬ IsText version bytes.now log) }
    ensures exact { Gives (λ log. log) result (log_read version bytes.now) }
{
    let (limits, threads, last_tags) = parts_of(alloc, version, bytes)?;
    Ok(RunLog::new(digest_in(bytes), limits, threads, last_tags))
}

/// The log that the bytes tell, of which there are fewer than 2^32. An `Err` is the first fault, in the order in which a
/// log is tested: its head, its headers, its last tags, its entries, its end; or `Memory`, where a request for memory was
/// refused.
pub fn read_log(alloc: Global, bytes: &[u8]) -> Result<RunLog, LogFault>
    requires { length bytes.now < 2 ^ 32 }
    // What is read is well formed, and spelled so.
    ensures found { IfOk result (λ log. IsText Two bytes.now log) }
    // The text of a log is read as this log, unless memory runs out.
    ensures only { (log : Log) → IsText Two bytes.now log → MatchResult result (λ read. read ≡ log) (λ e. e ≡ out_of_memory) }
    // Bytes that are refused are the text of no log, unless memory ran out.
    ensures refused { IfErr result (λ e. e.kind ≢ Memory → (log : Log) → ¬ IsText Two bytes.now log) }
    // Which fault it is.
    ensures exact { Gives (λ log. log) result (log_read Two bytes.now) }
{
    read_as(alloc, Version::Two, bytes)
}

/// The log that the bytes tell in version 1 of the format, as `read_log` reads those of today. It has no input numbers.
pub fn read_old(alloc: Global, bytes: &[u8]) -> Result<RunLog, LogFault>
    requires { length bytes.now < 2 ^ 32 }
    // What is read is well formed, and spelled so.
    ensures found { IfOk result (λ log. IsText One bytes.now log) }
    // The text of a log is read as this log, unless memory runs out.
    ensures only { (log : Log) → IsText One bytes.now log → MatchResult result (λ read. read ≡ log) (λ e. e ≡ out_of_memory) }
    // Bytes that are refused are the text of no log, unless memory ran out.
    ensures refused { IfErr result (λ e. e.kind ≢ Memory → (log : Log) → ¬ IsText One bytes.now log) }
    // Which fault it is.
    ensures exact { Gives (λ log. log) result (log_read One bytes.now) }
{
    read_as(alloc, Version::One, bytes)
}

/// Bytes are the text of a log exactly where they are read as this log; and where bytes follow the text, they are too
/// long, from its end on.
pub fn log_text_law()
    ensures read { (bytes : List ℕ) (log : Log) → IsBytes bytes → (log_read Two bytes ≡ Ok log) ↔ IsText Two bytes log }
    ensures old { (bytes : List ℕ) (log : Log) → IsBytes bytes → (log_read One bytes ≡ Ok log) ↔ IsText One bytes log }
    ensures long { (bytes more : List ℕ) (log : Log) → IsText Two bytes log → 0 < length more →
        log_read Two (bytes ++ more) ≡ Err (fault Long (length bytes)) }
{}
