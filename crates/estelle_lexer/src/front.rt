//! What stands at the front of a text.

ghost use Rattle.std.specs.Prelude.{◌≡◌, ◌<◌, ◌≤◌, ◌^◌, length, IfSome};
ghost use Rattle.std.specs.Char.{is_ascii_digit};
ghost use Rattle.estelle_tree.specs.Lexed as lexed;
ghost use Rattle.estelle_lexer.specs.Front as spec;

use crate::bytes::{is_blank, is_next, is_word_byte, opens_comment, tail};
use estelle_tree::Symbol;

#[derive(Clone, Copy, Debug)]
pub enum Piece {
    /// A blank or a comment.
    Separator,
    Word,
    Number(i64),
    Char(u8),
    Symbol(Symbol),
}

fn after_word(mut text: &[u8]) -> &[u8]
    ensures { result.now ≡ spec.past lexed.is_word_byte text.entry.now }
{
    while let [b, rest @ ..] = text {
        if !is_word_byte(*b) {
            return text;
        }
        text = rest;
    }
    text
}

/// The value of the digits at the front, at most 2^63, and the text after them.
fn number(mut text: &[u8]) -> (u64, &[u8])
    ensures value { result.0 ≡ spec.capped 0 text.entry.now }
    ensures after { result.1.now ≡ spec.past is_ascii_digit text.entry.now }
{
    let mut n = 0u64;
    while let [b, rest @ ..] = text {
        if !b.is_ascii_digit() {
            return (n, text);
        }
        n = (10 * u128::from(n) + u128::from(*b - b'0')).min(1 << 63) as u64;
        text = rest;
    }
    (n, text)
}

/// The text after the first `}` or `*)`.
fn after_comment(mut text: &[u8]) -> Option<&[u8]>
    ensures { spec.now_of result ≡ spec.after_comment text.entry.now }
{
    while let [b, rest @ ..] = text {
        if *b == b'}' {
            return Some(rest);
        }
        if *b == b'*' && is_next(rest, b')') {
            return Some(tail(rest));
        }
        text = rest;
    }
    None
}

/// The symbol that begins with this byte, and whether it takes the next one too.
fn symbol(b: u8, rest: &[u8]) -> Option<(Symbol, bool)>
    ensures { result ≡ spec.symbol b rest.now }
{
    match b {
        b'+' => Some((Symbol::Plus, false)),
        b'-' => Some((Symbol::Minus, false)),
        b'*' => Some((Symbol::Star, false)),
        b'=' => Some((Symbol::Equal, false)),
        b'<' => Some(if is_next(rest, b'>') {
            (Symbol::NotEqual, true)
        } else if is_next(rest, b'=') {
            (Symbol::AtMost, true)
        } else {
            (Symbol::Less, false)
        }),
        b'>' => Some(if is_next(rest, b'=') {
            (Symbol::AtLeast, true)
        } else {
            (Symbol::Greater, false)
        }),
        b'(' => Some(if is_next(rest, b'.') {
            (Symbol::OpenBracket, true)
        } else {
            (Symbol::OpenParenthesis, false)
        }),
        b')' => Some((Symbol::CloseParenthesis, false)),
        b'[' => Some((Symbol::OpenBracket, false)),
        b']' => Some((Symbol::CloseBracket, false)),
        b'.' => Some(if is_next(rest, b'.') {
            (Symbol::Dots, true)
        } else if is_next(rest, b')') {
            (Symbol::CloseBracket, true)
        } else {
            (Symbol::Dot, false)
        }),
        b',' => Some((Symbol::Comma, false)),
        b';' => Some((Symbol::Semicolon, false)),
        b':' => Some(if is_next(rest, b'=') {
            (Symbol::Becomes, true)
        } else {
            (Symbol::Colon, false)
        }),
        _ => None,
    }
}

fn cut_comment(after: Option<&[u8]>) -> Option<(Piece, &[u8])>
    ensures { spec.seen result ≡ spec.cut_comment (spec.now_of after.entry) }
{
    match after {
        None => None,
        Some(after) => Some((Piece::Separator, after)),
    }
}

fn cut_number(text: &[u8]) -> Option<(Piece, &[u8])>
    ensures { spec.seen result ≡ spec.cut_number text.now }
{
    let (n, after) = number(text);
    if n < 1 << 63 {
        Some((Piece::Number(n as i64), after))
    } else {
        None
    }
}

/// `rest` is the text after the first quote.
fn cut_char(rest: &[u8]) -> Option<(Piece, &[u8])>
    ensures { spec.seen result ≡ spec.cut_char rest.now }
{
    match rest {
        [c, b'\'', b'\'', after @ ..] if *c == b'\'' => Some((Piece::Char(b'\''), after)),
        [c, b'\'', after @ ..] if *c != b'\'' && b' ' <= *c && *c <= b'~' => {
            Some((Piece::Char(*c), after))
        }
        _ => None,
    }
}

fn cut_symbol(b: u8, rest: &[u8]) -> Option<(Piece, &[u8])>
    ensures { spec.seen result ≡ spec.cut_symbol b rest.now }
{
    match symbol(b, rest) {
        None => None,
        Some((symbol, true)) => Some((Piece::Symbol(symbol), tail(rest))),
        Some((symbol, false)) => Some((Piece::Symbol(symbol), rest)),
    }
}

/// As `front`, which says besides that the text gets shorter.
#[tactic(auto, unfolding(crate::specs::Front::cut))]
fn cut(text: &[u8]) -> Option<(Piece, &[u8])>
    ensures { spec.seen result ≡ spec.cut text.now }
{
    match text {
        [] => None,
        [b, rest @ ..] => {
            if is_blank(*b) {
                Some((Piece::Separator, rest))
            } else if b.is_ascii_alphabetic() {
                Some((Piece::Word, after_word(text)))
            } else if b.is_ascii_digit() {
                cut_number(text)
            } else if *b == b'{' {
                cut_comment(after_comment(rest))
            } else if opens_comment(*b, rest) {
                cut_comment(after_comment(tail(rest)))
            } else if *b == b'\'' {
                cut_char(rest)
            } else {
                cut_symbol(*b, rest)
            }
        }
    }
}

/// What stands at the front, and the text after it; none where nothing begins.
pub fn front(text: &[u8]) -> Option<(Piece, &[u8])>
    ensures value { spec.seen result ≡ spec.cut text.now }
    ensures shorter { IfSome result (λ x. length x.1.now < length text.now) }
{
    cut(text)
}
