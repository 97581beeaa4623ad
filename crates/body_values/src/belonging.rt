//! Whether a value belongs to a type, unset parts allowed, and what may be stored in a variable.
//! No call takes memory.

ghost use Rattle.std.specs.Prelude.{◌≡◌, ◌&&◌, option_map};
ghost use Rattle.std.specs.Option.{option_copied};
ghost use Rattle.std.specs.List.{list_all};
ghost use Rattle.pascal_values.specs.declared.value.Shape.{out-Shape};
ghost use Rattle.pascal_values.specs.Shapes.{has_ordinal};
ghost use Rattle.estelle_model.specs.Types.{shape_of};
ghost use Rattle.estelle_model.specs.Belonging as spec;

use crate::fitting::{have_all, is_count, is_ordinal};
use estelle_model::{Denoter, Type};
use estelle_tree::Sequence;
use pascal_values::{Members, Value};

#[cycle(belonging)]
fn belongs(denoter: &Denoter, value: &Value) -> bool
    ensures { result ≡ spec.belongs (shape_of denoter.now) value.now }
{
    match denoter {
        Denoter::Array { low, high, item } => match value {
            Value::Array(parts) => {
                is_count(*low, *high, parts.len()) && all_belong(item.get(), parts.items())
            }
            _ => false,
        },
        Denoter::Fields(fields) => match value {
            Value::Fields(parts) => fields_belong(fields.as_slice(), parts.items()),
            _ => false,
        },
        Denoter::Set { low, high, .. } => match value {
            Value::Unset => true,
            Value::Set(members) => set_belongs(low.unsigned_abs(), high.unsigned_abs(), members),
            _ => false,
        },
        Denoter::Ordinal { host, low, high } => is_ordinal(*host, *low, *high, value),
    }
}

/// Whether the members of a set lie within bounds. That they rise is kept by their type.
fn set_belongs(low: u64, high: u64, members: &Members) -> bool
    ensures { result ≡ (spec.rises 0 members.now && list_all (has_ordinal low high) members.now) }
{
    have_all(low, high, members.items())
}

#[cycle(belonging)]
fn all_belong(denoter: &Denoter, values: &[Value]) -> bool
    ensures { result ≡ list_all (spec.belongs (shape_of denoter.now)) values.now }
{
    for value in values {
        if !belongs(denoter, value) {
            return false;
        }
    }
    true
}

#[cycle(belonging)]
fn fields_belong(fields: &[Denoter], values: &[Value]) -> bool
    ensures { result ≡ spec.are_values_of fields.now values.now }
{
    if fields.len() != values.len() {
        return false;
    }
    for i in 0..fields.len() {
        if !belongs(&fields[i], &values[i]) {
            return false;
        }
    }
    true
}

/// Whether there is a value for each type, and it belongs to it.
pub fn are_values_of(types: &[Type], values: &[Value]) -> bool
    ensures { result ≡ spec.are_values_of types.now values.now }
{
    if types.len() != values.len() {
        return false;
    }
    for i in 0..types.len() {
        if !belongs(types[i].denoter(), &values[i]) {
            return false;
        }
    }
    true
}

/// The type of a part, if there is one.
fn part_type(denoter: &Denoter, number: u32) -> Option<&Denoter>
    ensures { option_map shape_of (option_copied result) ≡ spec.part_at (out-Shape (shape_of denoter.now)) number }
{
    match denoter {
        Denoter::Array { item, .. } => Some(item.get()),
        Denoter::Fields(fields) => fields.get(number as usize),
        _ => None,
    }
}

/// The type of the part at a way.
fn type_at<'t>(denoter: &'t Denoter, way: &[u32]) -> Option<&'t Denoter>
    ensures { option_map shape_of (option_copied result) ≡ spec.shape_at (shape_of denoter.now) way.now }
{
    let mut part = denoter;
    for number in way {
        part = part_type(part, *number)?;
    }
    Some(part)
}

/// Whether a value belongs to the part at a way of the variable with a number.
pub fn may_store(types: &[Type], variable: u32, way: &[u32], value: &Value) -> bool
    ensures { result ≡ spec.may_store types.now variable way.now value.now }
{
    match types.get(variable as usize) {
        None => false,
        Some(type_) => match type_at(type_.denoter(), way) {
            None => false,
            Some(part) => belongs(part, value),
        },
    }
}
