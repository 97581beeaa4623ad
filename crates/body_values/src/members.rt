//! The members of a set constructor (ISO 7185, 6.7.1).

ghost use Rattle.std.specs.Prelude.{◌≡◌};
ghost use Rattle.estelle_model.specs.Operators.{in_base, one_member, members_from};
ghost use Rattle.body_values.specs.Gives.{Gives};

use crate::stop::Stop;
use pascal_values::{Fault, Members, span};
use std::alloc::Global;

fn in_base(n: i64) -> bool
    ensures { result ≡ in_base n }
{
    0 <= n && n <= 255
}

/// One member. `Range` where its ordinal lies outside `0..255`.
pub fn one_member(alloc: Global, n: i64) -> Result<Members, Stop>
    ensures { Gives (one_member n) result }
{
    if !in_base(n) {
        return Err(Stop::Fault(Fault::Range));
    }
    let ordinal = n.unsigned_abs() as u32;
    Ok(span(alloc, ordinal, ordinal)?)
}

/// The members from one ordinal to another, none where the first is the greater one. `Range` where one
/// of them lies outside `0..255`.
pub fn members_from(alloc: Global, first: i64, last: i64) -> Result<Members, Stop>
    ensures { Gives (members_from first last) result }
{
    if first > last {
        return Ok(Members::none(alloc));
    }
    if !in_base(first) {
        return Err(Stop::Fault(Fault::Range));
    }
    if !in_base(last) {
        return Err(Stop::Fault(Fault::Range));
    }
    Ok(span(
        alloc,
        first.unsigned_abs() as u32,
        last.unsigned_abs() as u32,
    )?)
}
