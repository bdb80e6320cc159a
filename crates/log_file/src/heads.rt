// What stands before the entries of a log: its head and a header for each thread.
ghost use Rattle.std.specs.Prelude.{◌≡◌, ◌^◌, ◌+◌, ◌*◌, ◌<◌, ◌≤◌, if◌then◌else◌, Some, None, All, length, IfOk, OnOk};
ghost use Rattle.std.specs.Bool.{OnFalse};
ghost use Rattle.replay_model.specs.Bounds.{most_entries, most_inputs};
ghost use Rattle.machine.specs.Faults.{are_counts};
ghost use Rattle.log_file.specs.Versions.{head_len, header_len};
ghost use Rattle.log_file.specs.LogReading.{Gives, reaches, are_limits, limits_in, head_in, plain_end, end_in, taken_at, is_over};
ghost use Rattle.log_file.specs.LogReading.{header_at, headers_in, last_tags_place, IsSmall};

use crate::log_fault::{LogFault, LogKind};
use crate::numbers::{half_at, number_at};
use crate::version::Version;
use machine::{Limits, MOST_INPUTS};
use replay_model::End;
use std::alloc::Global;

/// How many bytes stand before the headers.
pub(crate) const HEAD_LEN: usize = 51;

/// The numbers of threads and of words of a log, and its limits.
#[derive(Clone, Copy, Drop)]
pub(crate) struct Head {
    pub threads: usize,
    pub words: usize,
    pub limits: Limits,
}

/// How a thread ended, and how many memory steps, instructions, entries and input numbers it counts.
#[derive(Clone, Copy, Drop)]
pub(crate) struct Header {
    pub end: End,
    pub steps: u32,
    pub instr: u32,
    pub entries: u32,
    pub taken: u32,
}

// Whether the bytes reach a place.
#[tactic(auto, unfolding(crate::specs::LogReading::reaches))]
pub(crate) fn reaches(bytes: &[u8], place: usize) -> Result<(), LogFault>
    requires { length bytes.now < 2 ^ 32 }
    ensures value { result ≡ reaches bytes.now place }
    ensures there { OnOk result (place ≤ length bytes.now) }
{
    if bytes.len() < place {
        return Err(LogFault::new(LogKind::Short, bytes.len()));
    }
    Ok(())
}

// Whether there may be so many threads and so many words: 1 to 15, and 1 to 4,096.
fn are_counts(threads: usize, words: usize) -> bool
    ensures { result ≡ are_counts threads words }
{
    0 < threads && threads <= 15 && 0 < words && words <= 4096
}

// The limits in a head that is there.
#[tactic(auto, using(crate::proofs::HeadTests::limits_given))]
fn limits_in(bytes: &[u8]) -> Option<Limits>
    requires { head_len ≤ length bytes.now }
    ensures { result ≡ (if are_limits (limits_in bytes.now) then Some (limits_in bytes.now) else None) }
{
    Limits::new(
        number_at(bytes, 39),
        number_at(bytes, 43),
        number_at(bytes, 47),
    )
}

// The head of a log.
#[tactic(auto, unfolding(crate::specs::LogReading::head_in))]
pub(crate) fn head_of(version: Version, bytes: &[u8]) -> Result<Head, LogFault>
    requires { length bytes.now < 2 ^ 32 }
    ensures value { result ≡ head_in version bytes.now }
    ensures threads { IfOk result (λ head. head.threads ≤ 15) }
    ensures words { IfOk result (λ head. head.words ≤ 4096) }
    ensures there { OnOk result (head_len ≤ length bytes.now) }
{
    reaches(bytes, HEAD_LEN)?;
    if !bytes.starts_with(&version.magic()) {
        return Err(LogFault::new(LogKind::Magic, 0));
    }
    let threads = usize::from(bytes[4]);
    let words = usize::from(half_at(bytes, 5));
    if !are_counts(threads, words) {
        return Err(LogFault::new(LogKind::Counts, 4));
    }
    let Some(limits) = limits_in(bytes) else {
        return Err(LogFault::new(LogKind::Counts, 4));
    };
    Ok(Head {
        threads,
        words,
        limits,
    })
}

// The end with this number and this address.
#[tactic(auto, unfolding(crate::specs::LogReading::end_in))]
fn end_in(version: Version, words: usize, code: u8, address: u32) -> Option<End>
    ensures { result ≡ end_in version words code address }
{
    if code > version.last_end() {
        return None;
    }
    if code == 2 {
        return if (address as usize) < words {
            None
        } else {
            Some(End::BadAddress(address))
        };
    }
    if address == 0 { plain_end(code) } else { None }
}

// An end that has no address, by its number.
fn plain_end(code: u8) -> Option<End>
    ensures { result ≡ plain_end code }
{
    match code {
        0 => Some(End::Halted),
        1 => Some(End::InstrSpent),
        3 => Some(End::StepsSpent),
        4 => Some(End::EntriesFull),
        5 => Some(End::OutputFull),
        6 => Some(End::InputEmpty),
        _ => None,
    }
}

// How many input numbers the header at a place counts.
fn taken_at(version: Version, bytes: &[u8], at: usize) -> u32
    requires { at + header_len version ≤ length bytes.now }
    ensures { result ≡ taken_at version bytes.now at }
{
    match version {
        Version::One => 0,
        Version::Two => number_at(bytes, at + 17),
    }
}

// Whether a count of a header passes its limit.
fn is_over(limits: &Limits, header: &Header) -> bool
    ensures value { result ≡ is_over limits.now header.now }
    ensures entries { OnFalse result (header.now.entries ≤ most_entries) }
    ensures taken { OnFalse result (header.now.taken ≤ most_inputs) }
{
    header.steps > limits.steps()
        || header.instr > limits.instr()
        || header.entries > limits.entries()
        || header.taken as usize > MOST_INPUTS
}

// The header at a place.
#[tactic(auto, unfolding(crate::specs::LogReading::header_of))]
pub(crate) fn header_at(
    version: Version,
    head: &Head,
    bytes: &[u8],
    at: usize,
) -> Result<Header, LogFault>
    requires few { length bytes.now < 2 ^ 32 }
    requires there { at + header_len version ≤ length bytes.now }
    ensures value { result ≡ header_at version head.now bytes.now at }
    ensures small { IfOk result IsSmall }
{
    let counts = Header {
        end: End::Halted,
        steps: number_at(bytes, at + 5),
        instr: number_at(bytes, at + 9),
        entries: number_at(bytes, at + 13),
        taken: taken_at(version, bytes, at),
    };
    if is_over(&head.limits, &counts) {
        return Err(LogFault::new(LogKind::Counts, at));
    }
    match end_in(version, head.words, bytes[at], number_at(bytes, at + 1)) {
        Some(end) => Ok(Header { end, ..counts }),
        None => Err(LogFault::new(LogKind::EndCode, at)),
    }
}

// The headers of all threads.
pub(crate) fn headers_of(
    alloc: Global,
    version: Version,
    head: &Head,
    bytes: &[u8],
) -> Result<Vec<Header>, LogFault>
    requires few { length bytes.now < 2 ^ 32 }
    requires there { last_tags_place version head.now ≤ length bytes.now }
    ensures value { Gives (λ headers. headers.items) result (headers_in version head.now bytes.now) }
    ensures count { IfOk result (λ headers. length headers.items ≡ head.now.threads) }
    ensures small { IfOk result (λ headers. All IsSmall headers.items) }
{
    let mut headers = Vec::with_capacity(alloc, head.threads)?;
    for thread in 0..head.threads {
        let header = header_at(
            version,
            head,
            bytes,
            HEAD_LEN + version.header_len() * thread,
        )?;
        headers.push(header)?;
    }
    Ok(headers)
}
