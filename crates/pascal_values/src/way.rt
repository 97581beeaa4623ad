//! The part of a value at a way. No call takes memory.

ghost use Rattle.std.specs.Prelude.{◌≡◌, ◌∷◌, IsSome, Some, slice_get, slice_index_or};
ghost use Rattle.std.specs.Option.{option_copied};
ghost use Rattle.pascal_values.specs.declared.value.Value.TheVariants.{Unset};
ghost use Rattle.pascal_values.specs.Values.{part_of, parts_of, with_part, changed_at};

use crate::value::{Value, Values};
use estelle_lists::{Sequence, SequenceMut};
use std::mem;

/// The part at the way, if it leads to one. A way has the number of a part at each level, from 0.
pub fn find<'a>(value: &'a Value, way: &[u32]) -> Option<&'a Value>
    ensures { option_copied result ≡ part_of value.now way.now }
{
    match way {
        [] => Some(value),
        [first, rest @ ..] => match value {
            Value::Array(parts) | Value::Fields(parts) => match at(parts.items(), *first as usize) {
                Some(part) => find(part, rest),
                None => None,
            },
            _ => None,
        },
    }
}

fn at(parts: &[Value], place: usize) -> Option<&Value>
    ensures { option_copied result ≡ slice_get parts.now place }
{
    parts.get(place)
}

/// The part at the way.
pub fn part<'a>(value: &'a Value, way: &[u32]) -> &'a Value
    requires { IsSome (part_of value.now way.now) }
    ensures { part_of value.now way.now ≡ Some result.now }
{
    find(value, way).unwrap()
}

/// Puts another part at the way.
pub fn replace(value: &mut Value, way: &[u32], new: Value)
    requires { IsSome (part_of value.old way.now) }
    ensures { value.new ≡ with_part value.old way.now new }
{
    let old = mem::replace(value, Value::Unset);
    *value = old.with_part(way, new);
}

pub(crate) fn exchanged(mut parts: Values, number: usize) -> Value
    ensures { result ≡ slice_index_or parts number Unset }
{
    if number < parts.len() {
        parts.exchange(number, Value::Unset)
    } else {
        Value::Unset
    }
}

#[cycle(replaced)]
pub(crate) fn replace_in(parts: &mut Values, place: usize, way: &[u32], new: Value)
    ensures { parts.new ≡ changed_at parts.old place (λ p. with_part p way.now new) }
{
    if place < parts.len() {
        let old = parts.exchange(place, Value::Unset);
        parts.put_at(place, old.with_part(way, new));
    }
}
