// Numbers in a text.
ghost use Rattle.std.specs.Prelude.{◌≡◌, ◌≤◌, min, option_map};
ghost use Rattle.std.specs.Char.{digit_value, is_digit};
ghost use Rattle.std.specs.List.{list_all};
ghost use Rattle.std.specs.Str.Parse.{digits_value};
ghost use Rattle.assembler.specs.Lines.{tokens_of};
ghost use Rattle.assembler.specs.Numerals.{are_digits, number_in, number_of, one_number, both, two_numbers};

use crate::lines::next_token;

/// What stands for this number, and for each greater one.
pub const TOO_LARGE: u64 = 18_446_744_073_709_551_615;

// The value of a digit in a base of up to 36; 36 where the byte is no digit.
fn digit_value(b: u8) -> u8
    ensures { result ≡ digit_value b }
{
    match b {
        b'0'..=b'9' => b - b'0',
        b'A'..=b'Z' => b - b'A' + 10,
        b'a'..=b'z' => b - b'a' + 10,
        _ => 36,
    }
}

fn all_digits(base: u8, bytes: &[u8]) -> bool
    ensures { result ≡ list_all (λ b. is_digit b base) bytes.now }
{
    bytes.iter().all(|b| digit_value(*b) < base)
}

// One digit or more, and nothing else.
fn are_digits(base: u8, word: &[u8]) -> bool
    ensures { result ≡ are_digits base word.now }
{
    match word {
        [] => false,
        _ => all_digits(base, word),
    }
}

// The number that the digits write, or TOO_LARGE where it is greater.
#[tactic(auto, using(crate::proofs::Capped::capped_more))]
fn capped_value(base: u8, digits: &[u8]) -> u64
    requires { 1 ≤ base }
    ensures { result ≡ min TOO_LARGE (digits_value base digits.now) }
{
    let mut value: u64 = 0;
    for b in digits {
        value = value
            .saturating_mul(u64::from(base))
            .saturating_add(u64::from(digit_value(*b)));
    }
    value
}

// The number that the word writes in the base, or TOO_LARGE where it is greater; None where it has other bytes than
// digits, or none.
fn number_in(base: u8, word: &[u8]) -> Option<u64>
    requires { 1 ≤ base }
    ensures { result ≡ option_map (min TOO_LARGE) (number_in base word.now) }
{
    if are_digits(base, word) {
        Some(capped_value(base, word))
    } else {
        None
    }
}

/// The number that a word writes in decimal, or in hexadecimal after `0x`; TOO_LARGE where it is greater than that, and
/// None where the word is no number.
pub fn number(word: &[u8]) -> Option<u64>
    ensures { result ≡ option_map (min TOO_LARGE) (number_of word.now) }
{
    match word {
        [b'0', b'x' | b'X', digits @ ..] => number_in(16, digits),
        _ => number_in(10, word),
    }
}

/// The number that the only token writes, or TOO_LARGE where it is greater; None where there is no token, another one, or
/// it is no number.
pub fn one_number(tokens: &[u8]) -> Option<u64>
    ensures { result ≡ option_map (min TOO_LARGE) (one_number (tokens_of tokens.now)) }
{
    match next_token(tokens) {
        None => None,
        Some((word, rest)) => match next_token(rest) {
            None => number(word),
            Some(_) => None,
        },
    }
}

// Both numbers, where both are there.
fn both(first: Option<u64>, second: Option<u64>) -> Option<(u64, u64)>
    ensures { result ≡ both first second }
{
    match (first, second) {
        (Some(first), Some(second)) => Some((first, second)),
        _ => None,
    }
}

/// The numbers that the only two tokens write, each as in `one_number`.
pub fn two_numbers(tokens: &[u8]) -> Option<(u64, u64)>
    ensures { result ≡ option_map (λ n. (min TOO_LARGE n.0, min TOO_LARGE n.1)) (two_numbers (tokens_of tokens.now)) }
{
    match next_token(tokens) {
        None => None,
        Some((first, rest)) => match next_token(rest) {
            None => None,
            Some((second, rest)) => match next_token(rest) {
                None => both(number(first), number(second)),
                Some(_) => None,
            },
        },
    }
}
