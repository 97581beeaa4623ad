//! Tests on the bytes at the front of a text.

ghost use Rattle.std.specs.Prelude.{◌≡◌, ◌==◌, ◌&&◌};
ghost use Rattle.estelle_tree.specs.Lexed as lexed;
ghost use Rattle.estelle_lexer.specs.Front as spec;

pub fn is_blank(b: u8) -> bool
    ensures { result ≡ lexed.is_blank b }
{
    b == b' ' || b == b'\t' || b == b'\n' || b == b'\r'
}

pub fn is_word_byte(b: u8) -> bool
    ensures { result ≡ lexed.is_word_byte b }
{
    b.is_ascii_alphabetic() || b.is_ascii_digit() || b == b'_'
}

/// Whether this byte stands first.
pub fn is_next(text: &[u8], b: u8) -> bool
    ensures { result ≡ lexed.first_is (λ c. c == b) text.now }
{
    match text {
        [] => false,
        [c, ..] => *c == b,
    }
}

/// The text without its first byte.
pub fn tail(text: &[u8]) -> &[u8]
    ensures { result.now ≡ spec.tail text.now }
{
    match text {
        [] => text,
        [_, rest @ ..] => rest,
    }
}

/// Whether `(*` stands there, given its first byte and the text after that.
pub fn opens_comment(b: u8, rest: &[u8]) -> bool
    ensures { result ≡ (b == 40) && spec.next_is 42 rest.now }
{
    b == b'(' && is_next(rest, b'*')
}
