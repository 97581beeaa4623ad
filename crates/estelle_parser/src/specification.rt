//! A specification, and nothing behind it.

ghost use Rattle.std.specs.Prelude.{◌≡◌, IfOk, IfErr};
ghost use Rattle.estelle_tree.specs.declared.tree.specification.Spec.{Spec};
ghost use Rattle.estelle_tree.specs.Spells.{Spells};
ghost use Rattle.token_reader.specs.Reader.{Reads};
ghost use Rattle.estelle_parser.specs.Answers.{AreTokens, Gives, IsRefusedAt};
ghost use Rattle.estelle_parser.specs.Whole as spec;

use crate::body::parts;
use crate::error::SyntaxError;
use declaration_parser::{SysAttrForm, heads};
use estelle_lexer::Tokens;
use estelle_tree::{Kind, Spec};
use std::alloc::Global;
use token_reader::{Cursor, Optional, Read, ReadError};

/// How many levels of nesting may stand in one another.
const MAX_NESTING: u8 = 200;

/// `Spec = specification NAME [SysAttr] ";" {Head} Parts end "."` (ISO/IEC 9074)
#[tactic(auto, unfolding(crate::specs::Whole::specification))]
fn specification(alloc: Global, tokens: &mut Cursor<'_>, room: u8) -> Result<Spec, ReadError>
    ensures { Reads (spec.specification room tokens.old) result tokens.new }
{
    let from = tokens.start();
    tokens.expect(Kind::Specification)?;
    let name = tokens.name(alloc)?;
    let attr = Optional { item: &SysAttrForm }.read(alloc, tokens)?;
    tokens.expect(Kind::Semicolon)?;
    let heads = heads(alloc, tokens)?;
    let parts = parts(alloc, tokens, room)?;
    tokens.expect(Kind::End)?;
    tokens.expect(Kind::Dot)?;
    Ok(Spec {
        name,
        attr,
        heads,
        parts,
        span: tokens.since(from),
    })
}

/// Refuses a token behind the specification.
#[tactic(auto, unfolding(crate::specs::Whole::finish))]
fn finish(tokens: &Cursor<'_>) -> Result<(), ReadError>
    ensures { Reads (spec.finish tokens.now) result tokens.now }
{
    if tokens.left() == 0 {
        Ok(())
    } else {
        Err(tokens.refuse())
    }
}

/// A specification, and nothing behind it.
#[tactic(auto, unfolding(crate::specs::Whole::whole))]
fn whole(alloc: Global, tokens: &mut Cursor<'_>, room: u8) -> Result<Spec, ReadError>
    ensures { Reads (spec.whole room tokens.old) result tokens.new }
{
    let found = specification(alloc, tokens, room)?;
    finish(tokens)?;
    Ok(found)
}

/// Where the token starts with which so many are left, or where the input ends.
fn place_of(tokens: &Tokens, left: usize) -> u32
    ensures { result ≡ spec.place_of tokens.now.items tokens.now.rest left }
{
    let items = tokens.items();
    match &items[items.len().saturating_sub(left)..] {
        [first, ..] => first.span.start,
        [] => tokens.rest,
    }
}

/// The tree of a specification (ISO/IEC 9074) whose tokens these are.
pub fn parse(alloc: Global, tokens: &Tokens) -> Result<Spec, SyntaxError>
    requires { AreTokens tokens.now.items }
    // What is answered is spelled so, and no other tree is.
    ensures spelled { IfOk result (λ found. Spells found tokens.now.items) }
    ensures only { (found : Spec) → Spells found tokens.now.items → Gives found result }
    // It is refused where the first token starts with which the tokens up to it begin no sentence (`Begins`); where they all
    // do, at the end of what was cut into tokens.
    ensures place { IfErr result (IsRefusedAt tokens.now.items tokens.now.rest) }
{
    let mut place = Cursor::new(tokens.items(), 0);
    match whole(alloc, &mut place, MAX_NESTING) {
        Ok(found) => Ok(found),
        Err(ReadError::Refused { left }) => Err(SyntaxError::At(place_of(tokens, left))),
        Err(ReadError::Memory) => Err(SyntaxError::Memory),
    }
}
