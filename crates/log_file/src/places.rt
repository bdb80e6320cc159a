// Where the parts of a log begin.
ghost use Rattle.std.specs.Prelude.{◌≡◌, ◌+◌, ◌*◌, ◌≤◌, All, length};
ghost use Rattle.replay_model.specs.Bounds.{most_entries, most_inputs};
ghost use Rattle.log_file.specs.LogReading.{IsSmall, last_tags_place, entries_place, taken_place, log_end, header_entries, header_taken};

use crate::heads::{HEAD_LEN, Head, Header};
use crate::version::Version;

// How many entries the headers count.
fn entries_count(headers: &[Header]) -> usize
    requires few { length headers.now ≤ 15 }
    requires small { All IsSmall headers.now }
    ensures value { result ≡ header_entries headers.now }
    ensures most { result ≤ most_entries * length headers.now }
{
    let mut count = 0;
    for header in headers {
        count += header.entries as usize;
    }
    count
}

// How many input numbers the headers count.
fn taken_count(headers: &[Header]) -> usize
    requires few { length headers.now ≤ 15 }
    requires small { All IsSmall headers.now }
    ensures value { result ≡ header_taken headers.now }
    ensures most { result ≤ most_inputs * length headers.now }
{
    let mut count = 0;
    for header in headers {
        count += header.taken as usize;
    }
    count
}

// Where the last tags begin.
pub(crate) fn last_tags_place(version: Version, head: &Head) -> usize
    requires { head.now.threads ≤ 15 }
    ensures value { result ≡ last_tags_place version head.now }
    ensures most { result ≤ 366 }
{
    HEAD_LEN + version.header_len() * head.threads
}

// Where the entries begin.
pub(crate) fn entries_place(version: Version, head: &Head) -> usize
    requires threads { head.now.threads ≤ 15 }
    requires words { head.now.words ≤ 4096 }
    ensures value { result ≡ entries_place version head.now }
    ensures most { result ≤ 16750 }
{
    last_tags_place(version, head) + 4 * head.words
}

// Where the input numbers begin.
pub(crate) fn taken_place(version: Version, head: &Head, headers: &[Header]) -> usize
    requires threads { head.now.threads ≤ 15 }
    requires words { head.now.words ≤ 4096 }
    requires few { length headers.now ≤ 15 }
    requires small { All IsSmall headers.now }
    ensures value { result ≡ taken_place version head.now headers.now }
    ensures most { result ≤ 3457390 }
{
    entries_place(version, head) + 14 * entries_count(headers)
}

// Where the log ends.
pub(crate) fn log_end(version: Version, head: &Head, headers: &[Header]) -> usize
    requires threads { head.now.threads ≤ 15 }
    requires words { head.now.words ≤ 4096 }
    requires few { length headers.now ≤ 15 }
    requires small { All IsSmall headers.now }
    ensures value { result ≡ log_end version head.now headers.now }
    ensures most { result ≤ 7389550 }
{
    taken_place(version, head, headers) + 4 * taken_count(headers)
}
