//! Whether a value belongs to a type. No call takes memory.

ghost use Rattle.std.specs.Prelude.{◌≡◌, ◌==◌};
ghost use Rattle.pascal_values.specs.Shapes.{is_within, fit_of, place_of, item_count, each_within, has_ordinal, bool_ordinal};
ghost use Rattle.std.specs.List.{list_all};

use crate::fault::Fault;
use crate::value::{Shape, Value};
use estelle_lists::Sequence;

/// Whether a value may be assigned to a variable of this shape. `Unset` exactly where the whole value
/// is unset, `Range` exactly where a part of it is of another kind or lies outside its shape.
pub fn fits(shape: &Shape, value: &Value) -> Result<(), Fault>
    ensures { result ≡ fit_of shape.now value.now }
{
    if matches!(value, Value::Unset) {
        return Err(Fault::Unset);
    }
    if lies_within(shape, value) {
        Ok(())
    } else {
        Err(Fault::Range)
    }
}

#[cycle(within)]
fn lies_within(shape: &Shape, value: &Value) -> bool
    ensures { result ≡ is_within shape.now value.now }
{
    match (shape, value) {
        (_, Value::Unset) => true,
        (Shape::Int { low, high }, Value::Int(n)) => *low <= *n && *n <= *high,
        (Shape::Bool { low, high }, Value::Bool(b)) => has(*low, *high, u32::from(*b)),
        (Shape::Char { low, high }, Value::Char(n)) => has(*low, *high, u32::from(*n)),
        (Shape::Enum { low, high }, Value::Enum(n)) => has(*low, *high, *n),
        (Shape::Set { low, high }, Value::Set(members)) => have_all(*low, *high, members.items()),
        (Shape::Array { low, high, item }, Value::Array(parts)) => {
            is_count(*low, *high, parts.len()) && all_within(item.get(), parts.items())
        }
        (Shape::Fields(shapes), Value::Fields(parts)) => {
            fields_within(shapes.as_slice(), parts.items())
        }
        _ => false,
    }
}

#[cycle(within)]
fn all_within(shape: &Shape, values: &[Value]) -> bool
    ensures { result ≡ list_all (is_within shape.now) values.now }
{
    for value in values {
        if !lies_within(shape, value) {
            return false;
        }
    }
    true
}

#[cycle(within)]
fn fields_within(shapes: &[Shape], values: &[Value]) -> bool
    ensures { result ≡ each_within shapes.now values.now }
{
    if shapes.len() != values.len() {
        return false;
    }
    for i in 0..shapes.len() {
        if !lies_within(&shapes[i], &values[i]) {
            return false;
        }
    }
    true
}

fn has(low: u32, high: u32, n: u32) -> bool
    ensures { result ≡ has_ordinal low high n }
{
    low <= n && n <= high
}

fn have_all(low: u32, high: u32, ordinals: &[u32]) -> bool
    ensures { result ≡ list_all (has_ordinal low high) ordinals.now }
{
    for n in ordinals {
        if !has(low, high, *n) {
            return false;
        }
    }
    true
}

/// Whether an array with these bounds has so many items.
fn is_count(low: i64, high: i64, count: usize) -> bool
    ensures { result ≡ (count == item_count low high) }
{
    if low > high {
        return count == 0;
    }
    count > 0 && (count - 1) as u64 == high.abs_diff(low)
}

/// The place of an index among an array's items, from 0. `Index` exactly where it lies outside
/// `low..high`, or where more than `2 ^ 32` items stand before it.
pub fn position(low: i64, high: i64, n: i64) -> Result<u32, Fault>
    ensures { result ≡ place_of low high n }
{
    if n < low || high < n {
        return Err(Fault::Index);
    }
    u32::try_from(n.abs_diff(low)).map_err(|_| Fault::Index)
}
