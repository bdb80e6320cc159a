// The parts of a line: an optional label, and an optional item.
ghost use Rattle.std.specs.Prelude.{◌≡◌, option_copied};
ghost use Rattle.std.specs.List.{list_all};
ghost use Rattle.assembler.specs.Lines.{tokens_of};
ghost use Rattle.assembler.specs.Parts.{label_in, label_of, item_of, first_of, after_first_of, parts_of, is_plain_byte, is_plain};
ghost use Rattle.assembler.specs.Seen.{parts_seen};

use crate::head::Head;
use crate::lines::{before_comment, next_token};
use crate::words::{head, is_name};

/// What a line says: its label, what its item begins with, and the bytes after that, whose tokens are the operands.
#[derive(Clone, Copy, Debug)]
pub struct LineParts<'a> {
    pub label: Option<&'a [u8]>,
    pub head: Head,
    pub operands: &'a [u8],
}

impl LineParts<'_> {
    ghost use Rattle.assembler.specs.Progress.{has_bad_label, wants_thread};
    ghost use Rattle.assembler.specs.Seen.{parts_seen};

    /// Whether the label's name is not formed as a name, or a directive follows it.
    pub fn has_bad_label(&self) -> bool
        ensures { result ≡ has_bad_label (parts_seen self.now) }
    {
        match self.label {
            None => false,
            Some(name) => !is_name(name) || self.head.is_directive(),
        }
    }

    /// Whether there is a label or an instruction, which only a thread has.
    pub fn wants_thread(&self) -> bool
        ensures { result ≡ wants_thread (parts_seen self.now) }
    {
        self.label.is_some() || self.head.is_operation()
    }
}

// The name before the colon of a token that ends with one.
fn label_in(token: &[u8]) -> Option<&[u8]>
    ensures { option_copied result ≡ label_in token.now }
{
    match token {
        [name @ .., b':'] => Some(name),
        _ => None,
    }
}

// The label that the tokens begin with, and the bytes of the tokens after it.
fn split_label(bytes: &[u8]) -> (Option<&[u8]>, &[u8])
    ensures label { option_copied result.0 ≡ label_of (tokens_of bytes.now) }
    ensures item { tokens_of result.1.now ≡ item_of (tokens_of bytes.now) }
{
    match next_token(bytes) {
        None => (None, bytes),
        Some((token, rest)) => match label_in(token) {
            Some(name) => (Some(name), rest),
            None => (None, bytes),
        },
    }
}

// What the first token begins, and the bytes of the tokens after it.
fn split_head(bytes: &[u8]) -> (Head, &[u8])
    ensures head { result.0 ≡ first_of (tokens_of bytes.now) }
    ensures operands { tokens_of result.1.now ≡ after_first_of (tokens_of bytes.now) }
{
    match next_token(bytes) {
        None => (Head::Nothing, bytes),
        Some((word, rest)) => (head(word), rest),
    }
}

/// The parts of a line.
pub fn read_line(line: &[u8]) -> LineParts<'_>
    ensures { parts_seen result ≡ parts_of line.now }
{
    let (label, item) = split_label(before_comment(line));
    let (head, operands) = split_head(item);
    LineParts {
        label,
        head,
        operands,
    }
}

fn is_plain_byte(b: u8) -> bool
    ensures { result ≡ is_plain_byte b }
{
    matches!(b, b'\t' | b'\r' | 32..=126)
}

/// Whether a line has no byte but tab, byte 13, and 32 to 126.
pub fn is_plain(line: &[u8]) -> bool
    ensures { result ≡ is_plain line.now }
{
    line.iter().all(|b| is_plain_byte(*b))
}
