//! Reading the transitions that a system takes.

ghost use Rattle.std.specs.Prelude.{◌≡◌, ◌≤◌, length, MatchBool};
ghost use Rattle.std.specs.declared.cmp.Ordering.TheVariants.{Less};
ghost use Rattle.estelle_model.specs.Trace as trace;
ghost use Rattle.estelle_tree.specs.Paths.{path_cmp};
ghost use Rattle.trace_text.specs.Fields.{IsReading, IsItem, AreItems, marked, listed, takes_line, Any};
ghost use Rattle.trace_text.specs.Forms.{IsPair, InPathOrder, AreTakes};

use crate::error::Missing;
use crate::fields::pair;
use crate::words::{follows, mark_at};
use estelle_tree::{Items, Pair, Path};
use std::alloc::Global;
use std::cmp::Ordering;

/// A pair with the byte behind it, and the place behind that. The byte is a space, or it ends the line.
fn marked_pair(alloc: Global, bytes: &[u8], at: usize) -> Result<((Pair, bool), usize), Missing>
    ensures { IsReading (marked trace.pair_text 32 10) (IsItem IsPair) Any bytes.now at result }
{
    match pair(alloc, bytes, at, b':', 1) {
        Err(missing) => Err(missing),
        Ok((pair, end)) => match mark_at(bytes, end, b' ', b'\n') {
            Some(last) => Ok(((pair, last), end + 1)),
            None => Err(Missing::Absent),
        },
    }
}

/// Pairs up to the end of the line, one at least, and the place behind it.
fn pairs(alloc: Global, bytes: &[u8], at: usize) -> Result<(Items<Pair>, usize), Missing>
    ensures { IsReading (listed trace.pair_text 32 10) (AreItems IsPair) Any bytes.now at result }
{
    let mut pairs = Items::new(alloc);
    let mut place = at;
    'pairs: loop {
        match marked_pair(alloc, bytes, place) {
            Err(missing) => return Err(missing),
            Ok((marked, next)) => {
                let (pair, last) = marked;
                pairs.push(pair)?;
                if last {
                    return Ok((pairs, next));
                }
                place = next;
            }
        }
    }
}

fn is_before(path: &Path, other: &Path) -> bool
    ensures { MatchBool result (path_cmp path.now other.now ≡ Less) (¬ (path_cmp path.now other.now ≡ Less)) }
{
    matches!(path.items().cmp(&other.items()), Ordering::Less)
}

fn in_path_order(pairs: &[Pair]) -> bool
    ensures { MatchBool result (InPathOrder pairs.now) (¬ InPathOrder pairs.now) }
{
    match pairs {
        [] => true,
        [first, others @ ..] => {
            let mut before = first;
            for pair in others {
                if !is_before(&before.path, &pair.path) {
                    return false;
                }
                before = pair;
            }
            true
        }
    }
}

/// What a system takes, up to the end of the line, and the place behind it.
pub fn takes(alloc: Global, bytes: &[u8], at: usize) -> Result<(Items<Pair>, usize), Missing>
    requires { at ≤ length bytes.now }
    ensures { IsReading takes_line AreTakes Any bytes.now at result }
{
    if follows(bytes, at, b"-\n") {
        return Ok((Items::new(alloc), at + 2));
    }
    match pairs(alloc, bytes, at) {
        Err(missing) => Err(missing),
        Ok((pairs, end)) => {
            if in_path_order(pairs.as_slice()) {
                Ok((pairs, end))
            } else {
                Err(Missing::Absent)
            }
        }
    }
}
