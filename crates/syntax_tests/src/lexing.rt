//! Tokens: what texts are cut into, where a text is refused, what stands behind, and lines and columns.

use estelle_lexer::place::line_and_column;
use estelle_lexer::{LexError, Tokens, blank_to_end, tokens};
use estelle_tree::{Placed, Span, Symbol, Token};
use std::alloc::Global;
use std::test::Fail;
use test_texts::{WORKED, Worked, tokens_of};

/// A token without its memory.
#[derive(Clone, Copy)]
enum Want {
    Word(&'static [u8]),
    Number(i64),
    Char(u8),
    Symbol(Symbol),
}

use Want::{Char, Number, Word};

fn is_wanted(token: &Token, want: Want) -> bool {
    match (token, want) {
        (Token::Word(word), Word(bytes)) => word.items() == bytes,
        (Token::Number(n), Number(m)) => *n == m,
        (Token::Char(c), Char(d)) => *c == d,
        (Token::Symbol(symbol), Want::Symbol(other)) => *symbol == other,
        _ => false,
    }
}

/// Each text with its tokens and the place after them.
const ROWS: [(&[u8], &[Want], u32); 16] = [
    (b"", &[], 0),
    (b"AbC_1 x", &[Word(b"abc_1"), Word(b"x")], 7),
    (
        b"(.1.)",
        &[
            Want::Symbol(Symbol::OpenBracket),
            Number(1),
            Want::Symbol(Symbol::CloseBracket),
        ],
        5,
    ),
    (
        b"..)",
        &[
            Want::Symbol(Symbol::Dots),
            Want::Symbol(Symbol::CloseParenthesis),
        ],
        3,
    ),
    (
        b"1..2",
        &[Number(1), Want::Symbol(Symbol::Dots), Number(2)],
        4,
    ),
    (b"(*)*)y", &[Word(b"y")], 6),
    (b"{ ( * (* \xff\0 *) z (* } 1", &[Word(b"z"), Number(1)], 23),
    (b"'''''x''~'", &[Char(b'\''), Char(b'x'), Char(b'~')], 10),
    (b"3do", &[Number(3), Word(b"do")], 3),
    (
        b"00000000000000000000001 9223372036854775807",
        &[Number(1), Number(9_223_372_036_854_775_807)],
        43,
    ),
    (
        b"<>=<=< >=>:=:",
        &[
            Want::Symbol(Symbol::NotEqual),
            Want::Symbol(Symbol::Equal),
            Want::Symbol(Symbol::AtMost),
            Want::Symbol(Symbol::Less),
            Want::Symbol(Symbol::AtLeast),
            Want::Symbol(Symbol::Greater),
            Want::Symbol(Symbol::Becomes),
            Want::Symbol(Symbol::Colon),
        ],
        13,
    ),
    (
        b"+-*=()[].,;",
        &[
            Want::Symbol(Symbol::Plus),
            Want::Symbol(Symbol::Minus),
            Want::Symbol(Symbol::Star),
            Want::Symbol(Symbol::Equal),
            Want::Symbol(Symbol::OpenParenthesis),
            Want::Symbol(Symbol::CloseParenthesis),
            Want::Symbol(Symbol::OpenBracket),
            Want::Symbol(Symbol::CloseBracket),
            Want::Symbol(Symbol::Dot),
            Want::Symbol(Symbol::Comma),
            Want::Symbol(Symbol::Semicolon),
        ],
        11,
    ),
    (
        b"END\t\r\n{.}. $",
        &[Word(b"end"), Want::Symbol(Symbol::Dot)],
        10,
    ),
    (
        b"end;.end..end.)",
        &[
            Word(b"end"),
            Want::Symbol(Symbol::Semicolon),
            Want::Symbol(Symbol::Dot),
            Word(b"end"),
            Want::Symbol(Symbol::Dots),
            Word(b"end"),
            Want::Symbol(Symbol::CloseBracket),
        ],
        15,
    ),
    (
        b"end_.ends.",
        &[
            Word(b"end_"),
            Want::Symbol(Symbol::Dot),
            Word(b"ends"),
            Want::Symbol(Symbol::Dot),
        ],
        10,
    ),
    (b" \t\r\n", &[], 4),
];

fn are_wanted(items: &[Placed], wanted: &[Want]) -> bool {
    items.len() == wanted.len()
        && items
            .iter()
            .zip(wanted)
            .all(|(placed, want)| is_wanted(&placed.token, *want))
}

/// Whether a text has these tokens, and this place after them.
fn has_tokens(alloc: Global, text: &[u8], wanted: &[Want], rest: u32) -> bool {
    match tokens_of(alloc, text) {
        Some(found) => found.rest == rest && are_wanted(found.items(), wanted),
        None => false,
    }
}

#[test]
fn tokens_of_texts(rt: HostRuntime) {
    for (text, wanted, rest) in &ROWS {
        assert!(rt; has_tokens(rt.alloc(), text, wanted, *rest), "{rest}");
    }
}

/// From `ab`, over a comment, to `(.`, `12` and `'x'`.
const SPANS: [(u32, u32); 4] = [(0, 2), (6, 8), (8, 10), (11, 14)];

fn are_spans(items: &[Placed]) -> bool {
    if items.len() != SPANS.len() {
        return false;
    }
    for (placed, (start, end)) in items.iter().zip(SPANS) {
        if placed.span != (Span { start, end }) {
            return false;
        }
    }
    true
}

#[test]
fn spans_of_a_text(rt: HostRuntime) -> Result<(), Fail> {
    let Some(found) = tokens_of(rt.alloc(), b"ab {c}(.12 'x'") else {
        return Err(Fail::new("no tokens"));
    };
    assert!(rt; are_spans(found.items()));
    Ok(())
}

const REFUSED: [(&[u8], u32); 18] = [
    (b"specification $;", 14),
    (b"a {b", 2),
    (b"a (*) b", 2),
    (b"a (* b * )", 2),
    (b"9223372036854775808", 0),
    (b"x 123456789012345678901234567890 $", 2),
    (b"\0", 0),
    (b"a\x7f", 1),
    (b"ab\xff", 2),
    (b"a\x0bb", 1),
    (b"'", 0),
    (b" ''", 1),
    (b"'''", 0),
    (b"'ab'", 0),
    (b"'\t'", 0),
    (b"'\x7f'", 0),
    (b"_a", 0),
    (b"}", 0),
];

/// Where a text of less than 2 GiB has no tokens.
fn refused_at(alloc: Global, text: &[u8]) -> Option<u32> {
    if text.len() >= 1 << 31 {
        return None;
    }
    match tokens(alloc, text) {
        Err(LexError::At(at)) => Some(at),
        _ => None,
    }
}

#[test]
fn places_of_errors(rt: HostRuntime) {
    for (text, place) in &REFUSED {
        assert!(rt; refused_at(rt.alloc(), text) == Some(*place), "{place}");
    }
}

/// Whether the tokens are as counted: how many, where the last one ends, and that only blanks are behind it.
fn are_counted(text: &[u8], found: &Tokens, (count, end): (usize, u32)) -> bool {
    found.items().len() == count && found.rest == end && is_behind(text, end, None)
}

fn is_counted(alloc: Global, worked: &Worked) -> bool {
    let text = worked.text.as_bytes();
    match (tokens_of(alloc, text), worked.counted) {
        (Some(found), Some(counted)) => are_counted(text, &found, counted),
        (Some(_), None) => true,
        (None, _) => false,
    }
}

#[test]
fn worked_texts(rt: HostRuntime) {
    for worked in &WORKED {
        assert!(rt; is_counted(rt.alloc(), worked), "{}", worked.name);
    }
}

/// What stands behind places.
const BEHIND: [(&[u8], u32, Option<u32>); 7] = [
    (b"end.", 4, None),
    (b"end. \n{x}(*y} \t\r", 4, None),
    (b"end.\nx\n", 4, Some(5)),
    (b"end. {} {x", 4, Some(8)),
    (b"end. (*", 4, Some(5)),
    (b"end. \0", 4, Some(5)),
    (b"x", 1, None),
];

/// Whether a place is in a text, and this is the first that is no blank behind it.
fn is_behind(text: &[u8], at: u32, other: Option<u32>) -> bool {
    if text.len() >= 1 << 31 {
        return false;
    }
    if at as usize > text.len() {
        return false;
    }
    blank_to_end(text, at) == other
}

#[test]
fn behind_places(rt: HostRuntime) {
    for (text, at, other) in &BEHIND {
        assert!(rt; is_behind(text, *at, *other), "{text:?}");
    }
}

/// Lines and columns of places.
const LINES: [(&[u8], u32, (u32, u32)); 6] = [
    (b"", 0, (1, 1)),
    (b"specification $;", 14, (1, 15)),
    (b"a\n", 1, (1, 2)),
    (b"a\n", 2, (2, 1)),
    (b"a\r\n\nbc\n", 5, (3, 2)),
    (b"\n\n\n", 3, (4, 1)),
];

/// Whether a place is in a text, on this line and in this column.
fn is_in_line(text: &[u8], at: u32, place: (u32, u32)) -> bool {
    if text.len() >= 1 << 31 {
        return false;
    }
    if at as usize > text.len() {
        return false;
    }
    line_and_column(text, at) == place
}

#[test]
fn lines_and_columns(rt: HostRuntime) {
    for (text, at, place) in &LINES {
        assert!(rt; is_in_line(text, *at, *place), "{text:?}");
    }
}
