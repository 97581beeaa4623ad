//! Loops: a step that is repeated until it reads nothing.

ghost use Rattle.token_reader.specs.Reader.{Reads};
ghost use Rattle.token_reader.specs.Lists as spec;

use crate::cursor::Cursor;
use crate::error::ReadError;
use crate::read::{Begins, Behind, BehindIf, Optional, Read};
use estelle_tree::{Items, Kind};
use std::alloc::Global;

/// `{x}`: all that the step reads, behind what was found before.
#[tactic(auto, unfolding(crate::specs::Lists::repeated))]
pub fn repeated<T: Drop, S: Read<Option<T>>>(
    alloc: Global,
    tokens: &mut Cursor<'_>,
    mut found: Items<T>,
    step: &S,
) -> Result<Items<T>, ReadError>
    requires { S.can step.now }
    ensures { Reads (spec.repeated (S.parser step.now) found tokens.old) result tokens.new }
{
    for _turn in 0..tokens.left() {
        match step.read(alloc, tokens)? {
            None => return Ok(found),
            Some(item) => found.push(item)?,
        }
    }
    Ok(found)
}

/// `x {y}`, where the step reads y.
#[tactic(auto, unfolding(crate::specs::Lists::first_and))]
fn first_and<T: Drop, P: Read<T>, S: Read<Option<T>>>(
    alloc: Global,
    tokens: &mut Cursor<'_>,
    item: &P,
    step: &S,
) -> Result<Items<T>, ReadError>
    requires first { P.can item.now }
    requires others { S.can step.now }
    ensures { Reads (spec.first_and (P.parser item.now) (S.parser step.now) tokens.old) result tokens.new }
{
    let first = item.read(alloc, tokens)?;
    let mut found = Items::new(alloc);
    found.push(first)?;
    repeated(alloc, tokens, found, step)
}

/// `x {k x}`
pub fn separated<T: Drop, P: Read<T>>(
    alloc: Global,
    tokens: &mut Cursor<'_>,
    kind: Kind,
    item: &P,
) -> Result<Items<T>, ReadError>
    requires { P.can item.now }
    ensures { Reads (spec.separated kind (P.parser item.now) tokens.old) result tokens.new }
{
    first_and(alloc, tokens, item, &Behind { kind, item })
}

/// `x {k x}`, where the terminal may stand once more behind it.
pub fn separated_if<T: Drop, P: Read<T> + Begins>(
    alloc: Global,
    tokens: &mut Cursor<'_>,
    kind: Kind,
    item: &P,
) -> Result<Items<T>, ReadError>
    requires { P.can item.now }
    ensures { Reads (spec.separated_if kind (P.begins item.now) (P.parser item.now) tokens.old) result tokens.new }
{
    first_and(alloc, tokens, item, &BehindIf { kind, item })
}

/// `{x}+`
pub fn several<T: Drop, P: Read<T> + Begins>(
    alloc: Global,
    tokens: &mut Cursor<'_>,
    item: &P,
) -> Result<Items<T>, ReadError>
    requires { P.can item.now }
    ensures { Reads (spec.several (P.begins item.now) (P.parser item.now) tokens.old) result tokens.new }
{
    first_and(alloc, tokens, item, &Optional { item })
}
