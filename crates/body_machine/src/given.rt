//! What a unit is given by the items on a stack.

ghost use Rattle.std.specs.Prelude.{◌≡◌, ◌++◌, take, drop, IfOk, IfSome};
ghost use Rattle.body_machine.specs.Frames.{blanks_of};
ghost use Rattle.body_machine.specs.Steps.{values_of, given_to, nothing_given};

use crate::item::Item;
use crate::stack::Stack;
use body_code::Local;
use estelle_model::ActualParameters;
use estelle_tree::{Items, SequenceMut};
use pascal_values::{Values, blank};
use std::alloc::{AllocError, Global};

/// The values that items are, where each is one.
pub fn values_of(alloc: Global, items: Stack) -> Result<Option<Values>, AllocError>
    ensures { IfOk result (λ values. values ≡ values_of items) }
{
    let mut items = items;
    let mut values = Values::none(alloc);
    while let Some(item) = items.pop() {
        match item {
            Item::Datum(value) => values.push(value)?,
            Item::Spot(_) => return Ok(None),
        }
    }
    Ok(Some(values))
}

/// Values for the locals that are variables, places for those by reference, by so many items on top, the first one first.
#[tactic(auto, using(crate::proofs::Stacked::take_one, crate::proofs::Stacked::drop_one))]
pub fn given_to(
    alloc: Global,
    locals: &[Local],
    stack: &mut Stack,
    count: usize,
) -> Result<Option<ActualParameters>, AllocError>
    ensures given { IfOk result (λ given. given ≡ given_to locals.now (take count stack.old) nothing_given) }
    ensures rest { IfOk result (λ given. IfSome given (λ _. stack.new ≡ drop count stack.old)) }
{
    let mut left = count;
    let mut locals = locals;
    let mut values = Values::none(alloc);
    let mut references = Items::new(alloc);
    while left > 0 {
        let Some(item) = stack.pop() else {
            break;
        };
        let [local, rest @ ..] = locals else {
            return Ok(None);
        };
        match item {
            Item::Datum(value) => {
                if local.by_ref {
                    return Ok(None);
                }
                values.push(value)?;
            }
            Item::Spot(place) => {
                if !local.by_ref {
                    return Ok(None);
                }
                references.push(place)?;
            }
        }
        locals = rest;
        left -= 1;
    }
    Ok(Some(ActualParameters { values, references }))
}

/// Adds the locals that are variables, as they begin.
pub fn add_blanks(alloc: Global, values: &mut Values, locals: &[Local]) -> Result<(), AllocError>
    ensures { IfOk result (λ _. values.new ≡ values.old ++ blanks_of locals.now) }
{
    for local in locals {
        if !local.by_ref {
            values.push(blank(alloc, &local.shape)?)?;
        }
    }
    Ok(())
}
