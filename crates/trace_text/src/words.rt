//! What stands at a place of a text.

ghost use Rattle.std.specs.Prelude.{◌≡◌, ◌≤◌, ◌<◌, Bool, length, drop, [], MatchBool, MatchOption};
ghost use Rattle.pascal_values.specs.Steps as steps;
ghost use Rattle.estelle_tree.specs.Lexed.{first_is, is_word_byte};
ghost use Rattle.trace_text.specs.Fields.{mark, NoByte, IsMark, NoMark, IsRun};

/// Whether a word stands at a place.
pub fn follows(bytes: &[u8], at: usize, word: &[u8]) -> bool
    requires { at ≤ length bytes.now }
    ensures { MatchBool result (steps.StandsWord bytes.now at word.now) (steps.NoWord bytes.now at word.now) }
{
    bytes[at..].starts_with(word)
}

/// Whether a byte stands at a place.
pub fn stands(bytes: &[u8], at: usize, byte: u8) -> bool
    ensures { MatchBool result (steps.Stands bytes.now at byte) (NoByte byte (drop at bytes.now)) }
{
    if at >= bytes.len() {
        return false;
    }
    bytes[at] == byte
}

/// Which of two bytes stands at a place: the first one is `false`, the second `true`.
pub fn mark_at(bytes: &[u8], at: usize, between: u8, close: u8) -> Option<bool>
    ensures { MatchOption result (NoMark between close (drop at bytes.now)) (λ last. IsMark between close bytes.now at last) }
{
    if at >= bytes.len() {
        return None;
    }
    which(bytes[at], between, close)
}

fn which(byte: u8, between: u8, close: u8) -> Option<bool>
    ensures { MatchOption result ((last : Bool) → ¬ (byte ≡ mark between close last)) (λ last. byte ≡ mark between close last) }
{
    if byte == close {
        return Some(true);
    }
    if byte == between {
        return Some(false);
    }
    None
}

fn is_part_of_word(b: u8) -> bool
    ensures { result ≡ is_word_byte b }
{
    b.is_ascii_alphabetic() || b.is_ascii_digit() || b == b'_'
}

/// Whether a word goes on at a place.
pub fn goes_on(bytes: &[u8], at: usize) -> bool
    ensures { result ≡ first_is is_word_byte (drop at bytes.now) }
{
    if at >= bytes.len() {
        return false;
    }
    is_part_of_word(bytes[at])
}

/// The place behind the letters, digits and `_` that begin at a place.
pub fn run_end(bytes: &[u8], at: usize) -> usize
    requires { at ≤ length bytes.now }
    ensures { IsRun bytes.now at result }
{
    let mut end = at;
    while goes_on(bytes, end) {
        end += 1;
    }
    end
}
