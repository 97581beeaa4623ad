//! Forms that stand in one another.

ghost use Rattle.token_reader.specs.Reader.{Reads};
ghost use Rattle.declaration_parser.specs.Forms as spec;

use estelle_tree::{Items, Kind};
use std::alloc::Global;
use token_reader::{Begins, Cursor, Read, ReadError};
use type_parser::part;

/// `from x to`
#[tactic(auto, unfolding(crate::specs::Forms::enclosed))]
pub fn enclosed<T: Drop, P: Read<T>>(
    alloc: Global,
    tokens: &mut Cursor<'_>,
    opener: Kind,
    closer: Kind,
    item: &P,
) -> Result<T, ReadError>
    requires { P.can item.now }
    ensures { Reads (spec.enclosed opener closer (P.parser item.now) tokens.old) result tokens.new }
{
    tokens.expect(opener)?;
    let item = item.read(alloc, tokens)?;
    tokens.expect(closer)?;
    Ok(item)
}

/// `x k y`
#[tactic(auto, unfolding(crate::specs::Forms::joined))]
pub fn joined<T: Drop, U: Drop, P: Read<T>, Q: Read<U>>(
    alloc: Global,
    tokens: &mut Cursor<'_>,
    kind: Kind,
    first: &P,
    second: &Q,
) -> Result<(T, U), ReadError>
    requires first { P.can first.now }
    requires second { Q.can second.now }
    ensures { Reads (spec.joined kind (P.parser first.now) (Q.parser second.now) tokens.old) result tokens.new }
{
    let one = first.read(alloc, tokens)?;
    tokens.expect(kind)?;
    let other = second.read(alloc, tokens)?;
    Ok((one, other))
}

/// `[k {x ";"}+]`
#[tactic(auto, unfolding(crate::specs::Forms::may_be_part))]
pub fn may_be_part<T: Drop, P: Read<T> + Begins>(
    alloc: Global,
    tokens: &mut Cursor<'_>,
    first: Kind,
    item: &P,
) -> Result<Items<T>, ReadError>
    requires { P.can item.now }
    ensures { Reads (spec.may_be_part first (P.begins item.now) (P.parser item.now) tokens.old) result tokens.new }
{
    if tokens.sees(first) {
        part(alloc, tokens, first, item)
    } else {
        Ok(Items::new(alloc))
    }
}
