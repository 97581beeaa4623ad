//! A parser, from a place in a list of tokens that is told by number.

ghost use Rattle.std.specs.Prelude.{◌≡◌, ◌+◌, ◌≤◌, ◌<◌, ◌^◌, length};
ghost use Rattle.pascal_parser.specs.Places.{place};
ghost use Rattle.syntax_forms.specs.Onward.{IsOnward};
ghost use Rattle.pascal_parser.specs.Answers.{Leaves, IsPlaced, Answers};

use crate::error::SyntaxError;
use estelle_tree::Placed;
use std::alloc::Global;
use token_reader::{Cursor, Read, ReadError};

/// The place after so many tokens.
fn cursor_at<'a>(tokens: &'a [Placed], at: u32) -> Cursor<'a>
    requires { at ≤ length tokens.now }
    ensures { result ≡ place tokens.now at }
{
    let at = at as usize;
    if at == 0 {
        return Cursor::new(tokens, 0);
    }
    let end = tokens[at - 1].span.end;
    Cursor::new(&tokens[at..], end)
}

/// The number of the place at which so many of the tokens are left.
fn number_of(tokens: &[Placed], left: usize) -> u32
    requires fits { length tokens.now < 2 ^ 32 }
    requires left { left ≤ length tokens.now }
    ensures { result + left ≡ length tokens.now }
{
    (tokens.len() - left) as u32
}

fn placed<T: Drop>(
    tokens: &[Placed],
    read: Result<T, ReadError>,
    cursor: &Cursor<'_>,
) -> Result<(T, u32), SyntaxError>
    requires fits { length tokens.now < 2 ^ 32 }
    requires leaves { Leaves (length tokens.now) read cursor.now }
    ensures { IsPlaced (length tokens.now) read cursor.now result }
{
    match read {
        Ok(node) => Ok((node, number_of(tokens, cursor.left()))),
        Err(ReadError::Refused { left }) => Err(SyntaxError::At(number_of(tokens, left))),
        Err(ReadError::Memory) => Err(SyntaxError::Memory),
    }
}

/// What stands from a place on.
pub fn read_at<T: Drop, P: Read<T>>(
    alloc: Global,
    tokens: &[Placed],
    at: u32,
    item: &P,
) -> Result<(T, u32), SyntaxError>
    requires fits { length tokens.now < 2 ^ 32 }
    requires inside { at ≤ length tokens.now }
    requires can { P.can item.now }
    requires onward { IsOnward (P.parser item.now) }
    ensures { Answers (length tokens.now) (P.parser item.now (place tokens.now at)) result }
{
    let mut cursor = cursor_at(tokens, at);
    let read = item.read(alloc, &mut cursor);
    placed(tokens, read, &cursor)
}
