//! Parts of values, as they are read and put. Only a copy takes memory.

ghost use Rattle.std.specs.Prelude.{◌≡◌, ◌∷◌, slice_get};
ghost use Rattle.std.specs.Option.{option_copied};
ghost use Rattle.pascal_values.specs.Values.{into, part_of, parts_of, changed_at, with_part};
ghost use Rattle.estelle_model.specs.Places.{set_value};
ghost use Rattle.body_values.specs.Gives.{Gives};

use crate::stop::Stop;
use estelle_tree::{Sequence, SequenceMut};
use pascal_values::{Fault, Value, Values, copy, find, replace};
use std::alloc::Global;
use std::mem;

/// An array's items, or a record's fields.
pub fn parts_of(value: &Value) -> &[Value]
    ensures { result.now ≡ parts_of value.now }
{
    match value {
        Value::Array(parts) | Value::Fields(parts) => parts.items(),
        _ => &[],
    }
}

/// The part at a way of the value with a number, if there is one.
pub fn below<'v>(values: &'v [Value], number: u32, way: &[u32]) -> Option<&'v Value>
    ensures { option_copied result ≡ into (slice_get values.now number) (λ v. part_of v way.now) }
{
    match at(values, number as usize) {
        Some(value) => find(value, way),
        None => None,
    }
}

/// The part at a way below a part of one of the frames, if there is one.
pub fn below_frame<'v>(
    frames: &'v [Value],
    frame: u32,
    number: u32,
    way: &[u32],
) -> Option<&'v Value>
    ensures { option_copied result ≡ into (slice_get frames.now frame) (λ v. part_of v (number ∷ way.now)) }
{
    match at(frames, frame as usize) {
        Some(value) => below(parts_of(value), number, way),
        None => None,
    }
}

/// The value at a place of a list, if there is one.
pub fn at(values: &[Value], place: usize) -> Option<&Value>
    ensures { option_copied result ≡ slice_get values.now place }
{
    values.get(place)
}

/// A copy of a part that is set.
pub fn loaded(alloc: Global, part: Option<&Value>) -> Result<Value, Stop>
    ensures { Gives (set_value (option_copied part.entry)) result }
{
    match part {
        None => Err(Stop::Broken),
        Some(Value::Unset) => Err(Stop::Fault(Fault::Unset)),
        Some(value) => Ok(copy(alloc, value)?),
    }
}

/// Puts a value at a way, if it leads to a part.
#[tactic(auto, using(crate::proofs::ValueLemmas::nowhere))]
pub fn put_part(value: &mut Value, way: &[u32], new: Value)
    ensures { value.new ≡ with_part value.old way.now new }
{
    if find(value, way).is_some() {
        replace(value, way, new);
    }
}

/// Puts a value at a way of the value with a number, if it leads to a part.
pub fn put_below(values: &mut Values, number: u32, way: &[u32], new: Value)
    ensures { values.new ≡ changed_at values.old number (λ v. with_part v way.now new) }
{
    let place = number as usize;
    if place < values.len() {
        let mut old = values.exchange(place, Value::Unset);
        put_part(&mut old, way, new);
        values.put_at(place, old);
    }
}

/// Puts a value at a way below a part of one of the frames, if it leads to a part.
pub fn put_in_frame(frames: &mut Vec<Value>, frame: u32, number: u32, way: &[u32], new: Value)
    ensures { frames.new.items ≡ changed_at frames.old.items frame (λ v. with_part v (number ∷ way.now) new) }
{
    let place = frame as usize;
    if place < frames.len() {
        let old = mem::replace(&mut frames[place], Value::Unset);
        frames[place] = old.with_below(number, way, new);
    }
}
