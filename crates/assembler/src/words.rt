// Single words: names, registers, and what the first word of an item begins.
ghost use Rattle.std.specs.Prelude.{◌≡◌};
ghost use Rattle.std.specs.List.{list_all};
ghost use Rattle.assembler.specs.Words.{begins_name, continues_name, is_name, register_of, spells, op_named, head_of};
ghost use Rattle.std.specs.Char.{to_ascii_lowercase};

use crate::head::Head;
use crate::mnemonic::mnemonic;
use machine::{OPS, Op};

fn begins_name(b: u8) -> bool
    ensures { result ≡ begins_name b }
{
    matches!(b, b'a'..=b'z' | b'A'..=b'Z' | b'_')
}

fn continues_name(b: u8) -> bool
    ensures { result ≡ continues_name b }
{
    begins_name(b) || matches!(b, b'0'..=b'9')
}

fn all_continue(bytes: &[u8]) -> bool
    ensures { result ≡ list_all continues_name bytes.now }
{
    bytes.iter().all(|b| continues_name(*b))
}

/// Whether the word is a label's name: a letter or `_`, followed by letters, digits and `_`.
pub fn is_name(word: &[u8]) -> bool
    ensures { result ≡ is_name word.now }
{
    match word {
        [] => false,
        [first, rest @ ..] => begins_name(*first) && all_continue(rest),
    }
}

/// The register that the word names, `r0` to `r15`.
pub fn register(word: &[u8]) -> Option<u8>
    ensures { result ≡ register_of word.now }
{
    match word {
        [b'r' | b'R', digit @ b'0'..=b'9'] => Some(*digit - b'0'),
        [b'r' | b'R', b'1', digit @ b'0'..=b'5'] => Some(*digit - b'0' + 10),
        _ => None,
    }
}

fn lower(b: u8) -> u8
    ensures { result ≡ to_ascii_lowercase b }
{
    if matches!(b, b'A'..=b'Z') { b + 32 } else { b }
}

// Whether the word spells this name of lower-case letters, each letter in either case.
fn spells(name: &[u8], word: &[u8]) -> bool
    ensures { result ≡ spells name.now word.now }
{
    match (name, word) {
        ([], []) => true,
        ([n, name @ ..], [w, word @ ..]) => *n == lower(*w) && spells(name, word),
        _ => false,
    }
}

fn op_named(word: &[u8]) -> Option<Op>
    ensures { result ≡ op_named word.now }
{
    OPS.iter().copied().find(|op| spells(mnemonic(*op), word))
}

/// What an item begins with.
pub fn head(word: &[u8]) -> Head
    ensures { result ≡ head_of word.now }
{
    if spells(b".words", word) {
        Head::Words
    } else if spells(b".init", word) {
        Head::Init
    } else if spells(b".thread", word) {
        Head::Thread
    } else {
        match op_named(word) {
            Some(op) => Head::Operation(op),
            None => Head::Unknown,
        }
    }
}
