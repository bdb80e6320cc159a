// The bytes of a log.
ghost use Rattle.std.specs.Prelude.{◌≡◌, ◌+◌, ◌*◌, ◌^◌, ◌<◌, ◌≤◌, ◌++◌, All, IfOk, OnOk, length};
ghost use Rattle.std.specs.List.{flat_map};
ghost use Rattle.std.specs.Int.{w32, to_be_bytes};
ghost use Rattle.replay_model.specs.Bounds.{most_entries, most_inputs};
ghost use Rattle.log_file.specs.declared.version.Version.TheVariants.{Two};
ghost use Rattle.log_file.specs.Spelling.{address_of_end, code_of_end, entries_bytes, entry_count, entry_bytes, head_bytes};
ghost use Rattle.log_file.specs.Spelling.{header_bytes, limits_bytes, spelling, tag_bytes, taken_bytes, taken_count, text_len, IsText};

use crate::heads::HEAD_LEN;
use crate::version::Version;
use dep_log::{Entry, RunLog, ThreadLog};
use light_base::{Memory, Tag, put_u16, put_u32};
use machine::{End, Limits};
use std::alloc::Global;

/// The one text of a log. `read_log` gives the log back: these bytes are its text, and the text of a log is read as this
/// log. The bytes are as many as were asked for at first.
pub fn write_log(alloc: Global, log: &RunLog) -> Result<Vec<u8>, Memory>
    ensures text { IfOk result (λ bytes. IsText Two bytes.items log.now) }
    ensures value { IfOk result (λ bytes. bytes.items ≡ spelling log.now) }
    ensures len { IfOk result (λ bytes. length bytes.items ≡ text_len log.now) }
{
    let mut out = Vec::with_capacity(alloc, text_len(log))?;
    put_head(&mut out, log)?;
    put_headers(&mut out, log.threads())?;
    put_tags(&mut out, log.finals())?;
    put_all_entries(&mut out, log.threads())?;
    put_all_taken(&mut out, log.threads())?;
    Ok(out)
}

// How many bytes the text of a log has.
fn text_len(log: &RunLog) -> usize
    ensures { result ≡ text_len log.now }
{
    let threads = log.threads();
    HEAD_LEN
        + Version::Two.header_len() * threads.len()
        + 4 * log.finals().len()
        + 14 * entry_count(threads)
        + 4 * taken_count(threads)
}

// How many entries all threads have.
fn entry_count(threads: &[ThreadLog]) -> usize
    requires few { length threads.now ≤ 15 }
    requires short { All (λ thread. length thread.entries ≤ most_entries) threads.now }
    ensures value { result ≡ entry_count threads.now }
    ensures bound { result ≤ most_entries * length threads.now }
{
    let mut count = 0;
    for thread in threads {
        count += thread.entries().len();
    }
    count
}

// How many input numbers all threads took.
fn taken_count(threads: &[ThreadLog]) -> usize
    requires few { length threads.now ≤ 15 }
    requires short { All (λ thread. length thread.taken ≤ most_inputs) threads.now }
    ensures value { result ≡ taken_count threads.now }
    ensures bound { result ≤ most_inputs * length threads.now }
{
    let mut count = 0;
    for thread in threads {
        count += thread.taken().len();
    }
    count
}

// Appends what stands before the headers.
fn put_head(out: &mut Vec<u8>, log: &RunLog) -> Result<(), Memory>
    ensures digest { OnOk result (length log.now.digest ≡ 32) }
    ensures digest_bytes { OnOk result (All (λ byte. byte < 256) log.now.digest) }
    ensures written { OnOk result (out.new.items ≡ out.old.items ++ head_bytes Two log.now) }
{
    out.extend_from_slice(&Version::Two.magic())?;
    out.push(log.threads().len() as u8)?;
    put_u16(out, log.finals().len() as u16)?;
    put_digest(out, log.digest())?;
    put_limits(out, log.limits())
}

fn put_digest(out: &mut Vec<u8>, digest: &[u8]) -> Result<(), Memory>
    ensures written { OnOk result (out.new.items ≡ out.old.items ++ digest.now) }
    ensures bytes { All (λ byte. byte < 256) digest.now }
{
    out.extend_from_slice(digest)?;
    Ok(())
}

#[tactic(auto, unfolding(crate::specs::Spelling::limits_bytes))]
fn put_limits(out: &mut Vec<u8>, limits: &Limits) -> Result<(), Memory>
    ensures { OnOk result (out.new.items ≡ out.old.items ++ limits_bytes limits.now) }
{
    put_u32(out, limits.steps())?;
    put_u32(out, limits.instr())?;
    put_u32(out, limits.entries())
}

fn put_headers(out: &mut Vec<u8>, threads: &[ThreadLog]) -> Result<(), Memory>
    requires entries { All (λ thread. length thread.entries ≤ most_entries) threads.now }
    requires taken { All (λ thread. length thread.taken ≤ most_inputs) threads.now }
    ensures written { OnOk result (out.new.items ≡ out.old.items ++ flat_map (header_bytes Two) threads.now) }
    ensures addresses { OnOk result (All (λ thread. address_of_end thread.end < 2 ^ 32) threads.now) }
{
    for thread in threads {
        put_header(out, thread)?;
    }
    Ok(())
}

fn put_header(out: &mut Vec<u8>, thread: &ThreadLog) -> Result<(), Memory>
    requires entries { length thread.now.entries ≤ most_entries }
    requires taken { length thread.now.taken ≤ most_inputs }
    ensures written { OnOk result (out.new.items ≡ out.old.items ++ header_bytes Two thread.now) }
    ensures address { OnOk result (address_of_end thread.now.end < 2 ^ 32) }
{
    out.push(code_of(thread.end()))?;
    put_u32(out, address_of(thread.end()))?;
    put_u32(out, thread.steps())?;
    put_u32(out, thread.instr())?;
    put_u32(out, thread.entries().len() as u32)?;
    put_u32(out, thread.taken().len() as u32)
}

// The number of an end.
fn code_of(end: End) -> u8
    ensures { result ≡ code_of_end end }
{
    match end {
        End::Halted => 0,
        End::InstrSpent => 1,
        End::BadAddress(_) => 2,
        End::StepsSpent => 3,
        End::EntriesFull => 4,
        End::OutputFull => 5,
        End::InputEmpty => 6,
    }
}

// The address that no word has; 0 at another end.
fn address_of(end: End) -> u32
    ensures { result ≡ address_of_end end }
{
    match end {
        End::BadAddress(address) => address,
        _ => 0,
    }
}

fn put_tags(out: &mut Vec<u8>, tags: &[Tag]) -> Result<(), Memory>
    ensures { OnOk result (out.new.items ≡ out.old.items ++ flat_map tag_bytes tags.now) }
{
    for tag in tags {
        put_u32(out, tag.bits())?;
    }
    Ok(())
}

fn put_all_entries(out: &mut Vec<u8>, threads: &[ThreadLog]) -> Result<(), Memory>
    ensures { OnOk result (out.new.items ≡ out.old.items ++ flat_map entries_bytes threads.now) }
{
    for thread in threads {
        put_entries(out, thread.entries())?;
    }
    Ok(())
}

fn put_entries(out: &mut Vec<u8>, entries: &[Entry]) -> Result<(), Memory>
    ensures { OnOk result (out.new.items ≡ out.old.items ++ flat_map entry_bytes entries.now) }
{
    for entry in entries {
        put_entry(out, entry)?;
    }
    Ok(())
}

fn put_entry(out: &mut Vec<u8>, entry: &Entry) -> Result<(), Memory>
    ensures { OnOk result (out.new.items ≡ out.old.items ++ entry_bytes entry.now) }
{
    put_u16(out, entry.word)?;
    put_u32(out, entry.source.bits())?;
    put_u32(out, entry.first)?;
    put_u32(out, entry.last)
}

fn put_all_taken(out: &mut Vec<u8>, threads: &[ThreadLog]) -> Result<(), Memory>
    ensures written { OnOk result (out.new.items ≡ out.old.items ++ flat_map taken_bytes threads.now) }
    ensures numbers { OnOk result (All (λ thread. All (λ n. n < 2 ^ 32) thread.taken) threads.now) }
{
    for thread in threads {
        put_numbers(out, thread.taken())?;
    }
    Ok(())
}

fn put_numbers(out: &mut Vec<u8>, numbers: &[u32]) -> Result<(), Memory>
    ensures written { OnOk result (out.new.items ≡ out.old.items ++ flat_map (to_be_bytes w32) numbers.now) }
    ensures numbers { All (λ n. n < 2 ^ 32) numbers.now }
{
    for number in numbers {
        put_u32(out, *number)?;
    }
    Ok(())
}
