//! What stands behind the tokens of a text.

ghost use Rattle.std.specs.Prelude.{◌≡◌, ◌<◌, ◌≤◌, ◌+◌, ◌^◌, ◌↔◌, length, ℕ, Some, IsNone, IfSome};
ghost use Rattle.estelle_tree.specs.Lexed.{IsBlankFrom, IsFirstOther};
ghost use Rattle.estelle_lexer.specs.Front.{cut, now_of};
ghost use Rattle.estelle_lexer.specs.Blank as spec;

use crate::front::{Piece, front};

/// The text after the blank or comment at the front.
fn separator(text: &[u8]) -> Option<&[u8]>
    ensures value { now_of result ≡ spec.separator_of (cut text.now) }
    ensures shorter { IfSome result (λ after. length after.now < length text.now) }
{
    match front(text) {
        Some((Piece::Separator, after)) => Some(after),
        _ => None,
    }
}

/// The first place from this one on at which no blank or comment begins.
fn other_from(mut text: &[u8], mut at: u32) -> Option<u32>
    requires { at + length text.now < 2 ^ 31 }
    ensures { result ≡ spec.other_from (length text.entry.now) at text.entry.now }
{
    let total = text.len();
    for _turn in 0..total {
        if text.is_empty() {
            return None;
        }
        let Some(after) = separator(text) else {
            return Some(at);
        };
        at += (text.len() - after.len()) as u32;
        text = after;
    }
    None
}

/// None exactly where only blanks and comments stand from the place on; else the place of the first
/// other byte, or of the first byte of a comment that is not closed.
pub fn blank_to_end(bytes: &[u8], at: u32) -> Option<u32>
    requires short { length bytes.now < 2 ^ 31 }
    requires within { at ≤ length bytes.now }
    ensures blank { IsNone result ↔ IsBlankFrom bytes.now at }
    ensures other { (place : ℕ) → (result ≡ Some place) ↔ IsFirstOther bytes.now at place }
    ensures within { IfSome result (λ place. place < length bytes.now) }
{
    let text = &bytes[at as usize..];
    other_from(text, at)
}
