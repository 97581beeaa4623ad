//! The tokens of a text.

ghost use Rattle.std.specs.Prelude.{◌≡◌, ◌<◌, ◌≤◌, ◌^◌, ◌&&◌, length, List, ℕ, All, IfOk, IfErr};
ghost use Rattle.estelle_tree.specs.declared.token.Placed.{Placed};
ghost use Rattle.estelle_tree.specs.Lexed as lexed;
ghost use Rattle.estelle_tree.specs.Lexed.{IsLexed, IsLexicalErrorAt, FollowOneAnother};
ghost use Rattle.estelle_lexer.specs.Lex as spec;
ghost use Rattle.estelle_lexer.specs.Tokens.{IsRefused, Gives, Refuses, IsBelow, IsPlacedToken};

use crate::error::LexError;
use crate::front::{Piece, front};
use crate::list::Tokens;
use estelle_tree::{Items, Placed, Span, Symbol, Token, Word};
use std::alloc::{AllocError, Global};

fn is_end(token: &Token) -> bool
    ensures { result ≡ lexed.is_end token.now }
{
    match token {
        Token::Word(word) => word.items() == b"end".as_slice(),
        _ => false,
    }
}

fn is_dot(token: &Token) -> bool
    ensures { result ≡ lexed.is_dot token.now }
{
    matches!(token, Token::Symbol(Symbol::Dot))
}

/// Whether the text is read no further than this token.
fn ends_text(after_end: bool, token: &Token) -> bool
    ensures { result ≡ after_end && lexed.is_dot token.now }
{
    after_end && is_dot(token)
}

/// The token of a piece with these bytes; none for a separator.
fn token_of(alloc: Global, piece: Piece, run: &[u8]) -> Result<Option<Token>, AllocError>
    ensures { IfOk result (λ t. t ≡ spec.token_of piece run.now) }
{
    match piece {
        Piece::Separator => Ok(None),
        Piece::Word => Ok(Some(Token::Word(Word::of(alloc, run)?))),
        Piece::Number(n) => Ok(Some(Token::Number(n))),
        Piece::Char(c) => Ok(Some(Token::Char(c))),
        Piece::Symbol(symbol) => Ok(Some(Token::Symbol(symbol))),
    }
}

/// The tokens, one turn for each separator and token.
fn lex(alloc: Global, bytes: &[u8]) -> Result<Tokens, LexError>
    requires { length bytes.now < 2 ^ 31 }
    ensures { spec.Found result (spec.lex bytes.now) }
{
    let total = bytes.len();
    let mut text = bytes;
    let mut at = 0u32;
    let mut after_end = false;
    let mut items = Items::new(alloc);
    for _turn in 0..total {
        if text.is_empty() {
            return Ok(Tokens { items, rest: at });
        }
        let Some((piece, after)) = front(text) else {
            return Err(LexError::At(at));
        };
        let run = &text[..text.len() - after.len()];
        let next = at + run.len() as u32;
        let Some(token) = token_of(alloc, piece, run)? else {
            text = after;
            at = next;
            continue;
        };
        let ends = ends_text(after_end, &token);
        after_end = is_end(&token);
        let span = Span {
            start: at,
            end: next,
        };
        items.push(Placed { token, span })?;
        if ends {
            return Ok(Tokens { items, rest: next });
        }
        text = after;
        at = next;
    }
    Ok(Tokens { items, rest: at })
}

/// The tokens of a text, up to the `.` that follows `end` or up to the end of the text.
pub fn tokens(alloc: Global, bytes: &[u8]) -> Result<Tokens, LexError>
    requires { length bytes.now < 2 ^ 31 }
    // What is answered holds of the text.
    ensures lexed { IfOk result (λ found. IsLexed bytes.now found.items found.rest) }
    ensures refused { IfErr result (IsRefused bytes.now) }

    // There is no other answer, unless memory runs out.
    ensures only_list { (items : List Placed) (rest : ℕ) → IsLexed bytes.now items rest
        → Gives items rest result }
    ensures only_place { (place : ℕ) → IsLexicalErrorAt bytes.now place → Refuses place result }

    // What the tokens are, and where they lie.
    ensures forms { IfOk result (λ found. All IsPlacedToken found.items) }
    ensures spans { IfOk result (λ found. FollowOneAnother 0 found.items found.rest) }
    ensures count { IfOk result (λ found. length found.items ≤ found.rest) }
    ensures rest { IfOk result (λ found. found.rest ≤ length bytes.now) }
    ensures place { IfErr result (IsBelow (length bytes.now)) }
{
    lex(alloc, bytes)
}
