//! Values made whole: with nothing set in them, and as copies.

ghost use Rattle.std.specs.Prelude.{◌≡◌, ◌+◌, IfOk, map, replicate};
ghost use Rattle.pascal_values.specs.Shapes.{blank_of};

use crate::value::{Shape, Value, Values};
use estelle_lists::{Sequence, SequenceMut};
use std::alloc::{AllocError, Global};

/// A value of the shape whose simple parts and sets are unset.
#[cycle(blank)]
pub fn blank(alloc: Global, shape: &Shape) -> Result<Value, AllocError>
    ensures { IfOk result (λ v. v ≡ blank_of shape.now) }
{
    match shape {
        Shape::Array { low, high, item } => {
            if *low > *high {
                return Ok(Value::Array(Values::none(alloc)));
            }
            let first = blank(alloc, item.get())?;
            Ok(Value::Array(repeated(alloc, first, high.abs_diff(*low))?))
        }
        Shape::Fields(fields) => Ok(Value::Fields(blank_all(alloc, fields.as_slice())?)),
        _ => Ok(Value::Unset),
    }
}

#[cycle(blank)]
fn blank_all(alloc: Global, shapes: &[Shape]) -> Result<Values, AllocError>
    ensures { IfOk result (λ vs. vs ≡ map blank_of shapes.now) }
{
    let mut values = Values::none(alloc);
    for shape in shapes {
        values.push(blank(alloc, shape)?)?;
    }
    Ok(values)
}

/// The value and so many copies of it.
fn repeated(alloc: Global, value: Value, copies: u64) -> Result<Values, AllocError>
    ensures { IfOk result (λ vs. vs ≡ replicate (copies + 1) value) }
{
    let mut values = Values::none(alloc);
    for _ in 0..copies {
        values.push(copy(alloc, &value)?)?;
    }
    values.push(value)?;
    Ok(values)
}

/// A copy, which equals what it copies.
#[cycle(copy)]
pub fn copy(alloc: Global, value: &Value) -> Result<Value, AllocError>
    ensures { IfOk result (λ v. v ≡ value.now) }
{
    match value {
        Value::Unset => Ok(Value::Unset),
        Value::Int(n) => Ok(Value::Int(*n)),
        Value::Bool(b) => Ok(Value::Bool(*b)),
        Value::Char(c) => Ok(Value::Char(*c)),
        Value::Enum(n) => Ok(Value::Enum(*n)),
        Value::Set(members) => Ok(Value::Set(members.copy(alloc)?)),
        Value::Array(parts) => Ok(Value::Array(copy_all(alloc, parts.items())?)),
        Value::Fields(parts) => Ok(Value::Fields(copy_all(alloc, parts.items())?)),
    }
}

#[cycle(copy)]
fn copy_all(alloc: Global, parts: &[Value]) -> Result<Values, AllocError>
    ensures { IfOk result (λ vs. vs ≡ parts.now) }
{
    let mut values = Values::none(alloc);
    for part in parts {
        values.push(copy(alloc, part)?)?;
    }
    Ok(values)
}
