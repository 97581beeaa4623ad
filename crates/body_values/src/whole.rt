//! Values in which nothing is set.

ghost use Rattle.std.specs.Prelude.{◌≡◌, ◌+◌, IfOk, map, replicate};
ghost use Rattle.pascal_values.specs.Shapes.{blank_of};
ghost use Rattle.estelle_model.specs.Types.{shape_of};
ghost use Rattle.estelle_model.specs.Places as places;

use estelle_model::Denoter;
use estelle_tree::{Sequence, SequenceMut};
use pascal_values::{Value, Values, copy};
use std::alloc::{AllocError, Global};

/// A variable of a type as it begins: each simple part and each set is unset.
#[cycle(blank)]
pub fn blank(alloc: Global, denoter: &Denoter) -> Result<Value, AllocError>
    ensures { IfOk result (λ v. v ≡ blank_of (shape_of denoter.now)) }
{
    match denoter {
        Denoter::Array { low, high, item } => {
            if *low > *high {
                return Ok(Value::Array(Values::none(alloc)));
            }
            let first = blank(alloc, item.get())?;
            Ok(Value::Array(repeated(alloc, first, high.abs_diff(*low))?))
        }
        Denoter::Fields(fields) => Ok(Value::Fields(blank_all(alloc, fields.as_slice())?)),
        _ => Ok(Value::Unset),
    }
}

#[cycle(blank)]
fn blank_all(alloc: Global, denoters: &[Denoter]) -> Result<Values, AllocError>
    ensures { IfOk result (λ vs. vs ≡ map blank_of (map shape_of denoters.now)) }
{
    let mut values = Values::none(alloc);
    for denoter in denoters {
        values.push(blank(alloc, denoter)?)?;
    }
    Ok(values)
}

/// The value and so many copies of it.
fn repeated(alloc: Global, value: Value, copies: u64) -> Result<Values, AllocError>
    ensures { IfOk result (λ vs. vs ≡ replicate (copies + 1) value) }
{
    let mut values = Values::none(alloc);
    for _ in 0..copies {
        values.push(copy(alloc, &value)?)?;
    }
    values.push(value)?;
    Ok(values)
}

/// A value whose simple parts and sets are all unset.
#[cycle(blanked)]
pub fn blanked(alloc: Global, value: &Value) -> Result<Value, AllocError>
    ensures { IfOk result (λ v. v ≡ places.blanked value.now) }
{
    match value {
        Value::Array(parts) => Ok(Value::Array(all_blanked(alloc, parts.items())?)),
        Value::Fields(parts) => Ok(Value::Fields(all_blanked(alloc, parts.items())?)),
        _ => Ok(Value::Unset),
    }
}

#[cycle(blanked)]
fn all_blanked(alloc: Global, parts: &[Value]) -> Result<Values, AllocError>
    ensures { IfOk result (λ vs. vs ≡ map places.blanked parts.now) }
{
    let mut values = Values::none(alloc);
    for part in parts {
        values.push(blanked(alloc, part)?)?;
    }
    Ok(values)
}
