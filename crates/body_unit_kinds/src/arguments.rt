//! Arguments on the stack: as many as there are parameters, the last one on top.

ghost use Rattle.std.specs.Prelude.{◌≡◌, ◌≤◌, ◌++◌, length, true, false, drop, IfSome};
ghost use Rattle.body_kinds.specs.Kinded.{value_kinds, given_kinds, has_references, TakesArguments};
ghost use Rattle.body_unit_kinds.specs.Seen.{stack_of};

use crate::kind::{Kind, is_of_type, local_kind, same_kind};
use body_code::{CodeUnit, Local};
use estelle_model::Type;
use estelle_tree::Sequence;

/// What stands below values of these types.
#[tactic(auto, using(crate::proofs::ArgumentLemmas::one_more))]
pub fn below_values<'a, 's>(types: &[Type], stack: &'s [Kind<'a>]) -> Option<&'s [Kind<'a>]>
    ensures { IfSome result (λ rest. stack_of stack.now ≡ value_kinds types.now ++ stack_of rest.now) }
{
    let mut rest = stack;
    let mut left = types.len();
    'taking: while 0 < left {
        left -= 1;
        match rest {
            [] => return None,
            [top, below @ ..] => {
                if !is_of_type(*top, types[left].denoter()) {
                    return None;
                }
                rest = below;
            }
        }
    }
    Some(rest)
}

/// What stands below what is given to so many locals.
#[tactic(auto, using(crate::proofs::ArgumentLemmas::one_more))]
pub fn below_given<'a, 's>(
    count: usize,
    locals: &[Local],
    stack: &'s [Kind<'a>],
) -> Option<&'s [Kind<'a>]>
    requires { count ≤ length locals.now }
    ensures { IfSome result (λ rest. stack_of stack.now ≡ given_kinds count locals.now ++ stack_of rest.now) }
{
    let mut rest = stack;
    let mut left = count;
    'taking: while 0 < left {
        left -= 1;
        match rest {
            [] => return None,
            [top, below @ ..] => {
                if !same_kind(*top, local_kind(&locals[left])) {
                    return None;
                }
                rest = below;
            }
        }
    }
    Some(rest)
}

/// Whether none of these locals is by reference.
pub fn are_values(locals: &[Local]) -> bool
    ensures { result ≡ true → has_references locals.now ≡ false }
{
    for local in locals {
        if local.by_ref {
            return false;
        }
    }
    true
}

/// Whether a unit has so many parameters, and all by reference are among them.
pub fn takes(count: usize, unit: &CodeUnit) -> bool
    ensures { result ≡ true → TakesArguments count unit.now }
{
    let locals = unit.locals.items();
    count <= locals.len() && are_values(&locals[count..])
}
