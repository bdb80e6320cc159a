// The lines of a text, and the tokens of a line.
ghost use Rattle.std.specs.Prelude.{◌≡◌, ◌∷◌, [], ◌<◌, false, not, length, slice_index, position, MatchOption};
ghost use Rattle.assembler.specs.Lines.{lines_of, before_comment, tokens_of, is_line_end, is_comment_start, is_blank};

fn line_end(text: &[u8]) -> Option<usize>
    ensures { result ≡ position is_line_end text.now }
{
    text.iter().position(|b| *b == b'\n')
}

/// The first line of a text, and the text after it.
#[tactic(auto, using(crate::proofs::Pieces::pieces_at, crate::proofs::Pieces::pieces_none))]
pub fn split_line(text: &[u8]) -> (&[u8], &[u8])
    requires { 0 < length text.now }
    ensures lines { lines_of text.now ≡ result.0.now ∷ lines_of result.1.now }
    ensures shorter { length result.1.now < length text.now }
{
    match line_end(text) {
        Some(end) => (&text[..end], &text[end + 1..]),
        None => (text, &[]),
    }
}

fn comment_start(line: &[u8]) -> Option<usize>
    ensures { result ≡ position is_comment_start line.now }
{
    line.iter().position(|b| *b == b';')
}

/// A line up to its comment.
#[tactic(auto, using(crate::proofs::Pieces::before_first_at, crate::proofs::Pieces::before_first_none))]
pub fn before_comment(line: &[u8]) -> &[u8]
    ensures { result.now ≡ before_comment line.now }
{
    match comment_start(line) {
        Some(end) => &line[..end],
        None => line,
    }
}

fn is_blank(b: u8) -> bool
    ensures { result ≡ is_blank b }
{
    matches!(b, b' ' | b'\t' | b'\r' | b',')
}

fn first_blank(bytes: &[u8]) -> Option<usize>
    ensures { result ≡ position is_blank bytes.now }
{
    bytes.iter().position(|b| is_blank(*b))
}

fn token_start(bytes: &[u8]) -> Option<usize>
    ensures { result ≡ position (λ b. not (is_blank b)) bytes.now }
{
    bytes.iter().position(|b| !is_blank(*b))
}

// The token that the bytes begin with, and the bytes after it.
#[tactic(auto, using(crate::proofs::Pieces::tokens_at, crate::proofs::Pieces::tokens_none))]
fn split_token(bytes: &[u8]) -> (&[u8], &[u8])
    requires some { 0 < length bytes.now }
    requires token { is_blank (slice_index bytes.now 0) ≡ false }
    ensures { tokens_of bytes.now ≡ result.0.now ∷ tokens_of result.1.now }
{
    match first_blank(bytes) {
        Some(end) => (&bytes[..end], &bytes[end + 1..]),
        None => (bytes, &[]),
    }
}

/// The first token, and the bytes after it; None where there is none.
#[tactic(auto, using(crate::proofs::Pieces::tokens_from, crate::proofs::Pieces::no_tokens, crate::proofs::Pieces::token_begins))]
pub fn next_token(bytes: &[u8]) -> Option<(&[u8], &[u8])>
    ensures { MatchOption result (tokens_of bytes.now ≡ []) (λ p. tokens_of bytes.now ≡ p.0.now ∷ tokens_of p.1.now) }
{
    match token_start(bytes) {
        Some(start) => Some(split_token(&bytes[start..])),
        None => None,
    }
}
