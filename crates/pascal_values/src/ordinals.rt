//! Reading the ordinals of a set.

ghost use Rattle.std.specs.Prelude.{MatchOption, MatchBool, drop};
ghost use Rattle.std.specs.Fmt.{decimal};
ghost use Rattle.pascal_values.specs.Sets.{IsSet};
ghost use Rattle.pascal_values.specs.Steps.{IsNumber, IsOrdinal, IsItem, NoItem, AreOrdinals};

use crate::digits::number;
use crate::failing::ValueError;
use crate::words::separator_at;
use std::alloc::Global;

/// Ordinals up to the bracket that closes a set, one at least, and the place after the bracket.
pub(crate) fn ordinals(
    alloc: Global,
    bytes: &[u8],
    at: usize,
) -> Result<(Vec<u32>, usize), ValueError>
    ensures { AreOrdinals bytes.now at result }
{
    let mut ordinals = Vec::new(alloc);
    let mut place = at;
    while let Some((n, next, last)) = ordinal(bytes, place) {
        if ordinals.push(n).is_err() {
            return Err(ValueError::Memory);
        }
        if last {
            return Ok((ordinals, next));
        }
        place = next;
    }
    Err(ValueError::NoValue)
}

/// An ordinal, the place after the comma or bracket behind it, and whether that is the bracket.
fn ordinal(bytes: &[u8], at: usize) -> Option<(u32, usize, bool)>
    ensures { MatchOption result (NoItem decimal IsOrdinal 93 (drop at bytes.now)) (λ r. IsItem decimal IsOrdinal 93 bytes.now at r.0 r.1 r.2) }
{
    match number(bytes, at, 255) {
        None => None,
        Some((n, end)) => with_separator(bytes, at, n, end),
    }
}

fn with_separator(bytes: &[u8], at: usize, n: u64, end: usize) -> Option<(u32, usize, bool)>
    requires { IsNumber 255 bytes.now at n end }
    ensures { MatchOption result (NoItem decimal IsOrdinal 93 (drop at bytes.now)) (λ r. IsItem decimal IsOrdinal 93 bytes.now at r.0 r.1 r.2) }
{
    match separator_at(bytes, end, b']') {
        Some(last) => Some((n as u32, end + 1, last)),
        None => None,
    }
}

/// Whether ordinals are those of a set.
pub(crate) fn rise(ordinals: &[u32]) -> bool
    ensures { MatchBool result (IsSet ordinals.now) (¬ IsSet ordinals.now) }
{
    let mut least = 0;
    for n in ordinals {
        if *n < least || 255 < *n {
            return false;
        }
        least = *n + 1;
    }
    true
}
