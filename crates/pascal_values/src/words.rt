//! What stands at a place of a text.

ghost use Rattle.std.specs.Prelude.{◌≡◌, ◌≢◌, Bool, ◌≤◌, ◌+◌, [], drop, length, MatchBool, MatchOption};
ghost use Rattle.pascal_values.specs.Texts.{is_printable};
ghost use Rattle.pascal_values.specs.Steps.{separator, NoSeparator, Stands, StandsWord, NoWord, StandsQuoted, NoQuoted};

/// The byte at a place.
pub(crate) fn byte_at(bytes: &[u8], at: usize) -> Option<u8>
    ensures { MatchOption result (drop at bytes.now ≡ []) (λ c. Stands bytes.now at c) }
{
    if at >= bytes.len() {
        return None;
    }
    Some(bytes[at])
}

/// Whether a word stands at a place.
pub(crate) fn follows(bytes: &[u8], at: usize, word: &[u8]) -> bool
    requires { at ≤ length bytes.now }
    ensures { MatchBool result (StandsWord bytes.now at word.now) (NoWord bytes.now at word.now) }
{
    bytes[at..].starts_with(word)
}

pub(crate) fn is_printed(c: u8) -> bool
    ensures { result ≡ is_printable c }
{
    b' ' <= c && c <= b'~'
}

/// The character between quotes at a place, if it is not the quote itself.
pub(crate) fn quoted(bytes: &[u8], at: usize) -> Option<u8>
    requires { Stands bytes.now at 39 }
    ensures { MatchOption result (NoQuoted bytes.now at) (λ c. StandsQuoted bytes.now at c) }
{
    match byte_at(bytes, at + 1) {
        None => None,
        Some(c) => quoted_by(bytes, at, c),
    }
}

fn quoted_by(bytes: &[u8], at: usize, c: u8) -> Option<u8>
    requires quote { Stands bytes.now at 39 }
    requires byte { Stands bytes.now (at + 1) c }
    ensures { MatchOption result (NoQuoted bytes.now at) (λ d. StandsQuoted bytes.now at d) }
{
    if c == b'\'' || !is_printed(c) {
        return None;
    }
    if follows(bytes, at + 2, b"'") {
        Some(c)
    } else {
        None
    }
}

/// Whether the byte at a place is the bracket that closes, or else the comma.
pub(crate) fn separator_at(bytes: &[u8], at: usize, close: u8) -> Option<bool>
    ensures { MatchOption result (NoSeparator close (drop at bytes.now)) (λ last. Stands bytes.now at (separator close last)) }
{
    match byte_at(bytes, at) {
        None => None,
        Some(c) => separates(c, close),
    }
}

fn separates(c: u8, close: u8) -> Option<bool>
    ensures { MatchOption result ((last : Bool) → c ≢ separator close last) (λ last. c ≡ separator close last) }
{
    if c == close {
        return Some(true);
    }
    if c == b',' {
        return Some(false);
    }
    None
}
