//! Instructions that compute of what stands on the stack.

ghost use Rattle.std.specs.Prelude.{◌≡◌, []};
ghost use Rattle.pascal_values.specs.declared.value.Value.TheVariants.{Set};
ghost use Rattle.std.specs.Option.{option_copied};
ghost use Rattle.body_values.specs.declared.stop.Stop.TheVariants as stop;
ghost use Rattle.estelle_model.specs.Types.{assignable};
ghost use Rattle.body_values.specs.Gives.{Gives};
ghost use Rattle.body_state.specs.Follows.{Follows};
ghost use Rattle.body_machine.specs.Rows.{pushing, computing, combining, loading, extending, indexing, storing, fitting, blanking, failing, fit_as, store_as};
ghost use Rattle.body_machine.specs.Machine.{Datum};
ghost use Rattle.body_machine.specs.Seen.{Did};
ghost use Rattle.body_machine.specs.Ahead.{DidWith};

use crate::item::Item;
use crate::machine::Machine;
use crate::operators::{Binary, Unary, binary_value, unary_value};
use body_state::Walk;
use body_values::{Stop, deeper, int_of};
use estelle_model::Place;
use pascal_values::{Fault, Members, Shape, Value, copy, fits, position};
use std::alloc::Global;

/// An operand that is not there, or that is of another kind.
pub fn stuck() -> Stop
    ensures { result ≡ stop.Broken }
{
    Stop::Broken
}

/// A copy of a value goes on top.
pub fn constant(alloc: Global, machine: &mut Machine, value: &Value) -> Result<(), Stop>
    ensures { Did (pushing (Datum value.now)) machine.old result machine.new }
{
    let value = copy(alloc, value)?;
    machine.leave(Item::Datum(value))?;
    Ok(())
}

/// The empty set goes on top.
pub fn empty(alloc: Global, machine: &mut Machine) -> Result<(), Stop>
    ensures { Did (pushing (Datum (Set []))) machine.old result machine.new }
{
    machine.leave(Item::Datum(Value::Set(Members::none(alloc))))?;
    Ok(())
}

/// What is computed of the topmost value takes its place.
pub fn compute(alloc: Global, machine: &mut Machine, op: Unary) -> Result<(), Stop>
    ensures { Did (computing op) machine.old result machine.new }
{
    match machine.active.stack.pop() {
        Some(Item::Datum(value)) => {
            let computed = unary_value(alloc, op, &value)?;
            machine.leave(Item::Datum(computed))?;
            Ok(())
        }
        _ => Err(stuck()),
    }
}

/// What is computed of the two topmost values takes their place.
pub fn combine(alloc: Global, machine: &mut Machine, op: Binary) -> Result<(), Stop>
    ensures { Did (combining op) machine.old result machine.new }
{
    match machine.active.stack.pop() {
        Some(Item::Datum(right)) => match machine.active.stack.pop() {
            Some(Item::Datum(left)) => {
                let computed = binary_value(alloc, op, &left, &right)?;
                machine.leave(Item::Datum(computed))?;
                Ok(())
            }
            _ => Err(stuck()),
        },
        _ => Err(stuck()),
    }
}

/// The value of a place takes its place.
pub fn load(alloc: Global, machine: &mut Machine) -> Result<(), Stop>
    ensures { Did loading machine.old result machine.new }
{
    match machine.active.stack.pop() {
        Some(Item::Spot(place)) => {
            let value = machine.walk.load(alloc, &place)?;
            machine.leave(Item::Datum(value))?;
            Ok(())
        }
        _ => Err(stuck()),
    }
}

/// The place of a field takes that of its record.
pub fn extend(machine: &mut Machine, field: u32) -> Result<(), Stop>
    ensures { Did (extending field) machine.old result machine.new }
{
    match machine.active.stack.pop() {
        Some(Item::Spot(place)) => {
            machine.leave(Item::Spot(deeper(place, field)?))?;
            Ok(())
        }
        _ => Err(stuck()),
    }
}

/// The place of an item takes that of its array and the index.
pub fn index(machine: &mut Machine, low: i64, high: i64) -> Result<(), Stop>
    ensures { Did (indexing low high) machine.old result machine.new }
{
    match machine.active.stack.pop() {
        Some(Item::Datum(value)) => match machine.active.stack.pop() {
            Some(Item::Spot(place)) => {
                let number = int_of(&value)?;
                match position(low, high, number) {
                    Ok(number) => {
                        machine.leave(Item::Spot(deeper(place, number)?))?;
                        Ok(())
                    }
                    Err(fault) => Err(Stop::Fault(fault)),
                }
            }
            _ => Err(stuck()),
        },
        _ => Err(stuck()),
    }
}

/// Whether a value may be assigned to a variable of a shape. An array or a record has its type already.
#[tactic(auto, unfolding(estelle_model::specs::Types::assignable))]
fn assignable(shape: &Shape, value: &Value) -> Result<(), Fault>
    ensures { result ≡ assignable shape.now value.now }
{
    match shape {
        Shape::Array { .. } | Shape::Fields(_) => Ok(()),
        _ => fits(shape, value),
    }
}

/// The same of a value and a shape of a number.
pub fn fit_as(shape: Option<&Shape>, value: &Value) -> Result<(), Stop>
    ensures { Gives (fit_as (option_copied shape.entry) value.now) result }
{
    match shape {
        None => Err(stuck()),
        Some(shape) => match assignable(shape, value) {
            Ok(()) => Ok(()),
            Err(fault) => Err(Stop::Fault(fault)),
        },
    }
}

/// Stores a value at a place by the shape of a number.
fn store_as(
    alloc: Global,
    walk: &mut Walk,
    shape: Option<&Shape>,
    place: &Place,
    value: Value,
) -> Result<(), Stop>
    ensures { Follows (store_as (option_copied shape.entry) place.now value) walk.old result walk.new }
{
    match shape {
        None => Err(stuck()),
        Some(shape) => {
            let fit = assignable(shape, &value);
            walk.put_fitting(alloc, place, fit, value)
        }
    }
}

/// A value that was on top is stored at the place below it.
pub fn store_with(
    alloc: Global,
    machine: &mut Machine,
    shape: Option<&Shape>,
    value: Value,
) -> Result<(), Stop>
    ensures { DidWith value (storing (option_copied shape.entry)) machine.old result machine.new }
{
    match machine.active.stack.pop() {
        Some(Item::Spot(place)) => {
            store_as(alloc, &mut machine.walk, shape, &place, value)?;
            machine.active.stack.keep_place(place);
            machine.advance()?;
            Ok(())
        }
        _ => Err(stuck()),
    }
}

/// A value is stored at the place below it.
pub fn store(alloc: Global, machine: &mut Machine, shape: Option<&Shape>) -> Result<(), Stop>
    ensures { Did (storing (option_copied shape.entry)) machine.old result machine.new }
{
    match machine.active.stack.pop() {
        Some(Item::Datum(value)) => match machine.active.stack.pop() {
            Some(Item::Spot(place)) => {
                store_as(alloc, &mut machine.walk, shape, &place, value)?;
                machine.active.stack.keep_place(place);
                machine.advance()?;
                Ok(())
            }
            _ => Err(stuck()),
        },
        _ => Err(stuck()),
    }
}

/// The topmost value is tested.
pub fn fit(machine: &mut Machine, shape: Option<&Shape>) -> Result<(), Stop>
    ensures { Did (fitting (option_copied shape.entry)) machine.old result machine.new }
{
    match machine.active.stack.pop() {
        Some(Item::Datum(value)) => {
            fit_as(shape, &value)?;
            machine.leave(Item::Datum(value))?;
            Ok(())
        }
        _ => Err(stuck()),
    }
}

/// What stands at a place is made unset.
pub fn blank(alloc: Global, machine: &mut Machine) -> Result<(), Stop>
    ensures { Did blanking machine.old result machine.new }
{
    match machine.active.stack.pop() {
        Some(Item::Spot(place)) => {
            machine.walk.blank(alloc, &place)?;
            machine.advance()?;
            Ok(())
        }
        _ => Err(stuck()),
    }
}

/// Stops with a fault.
pub fn fault(machine: &mut Machine, kind: Fault) -> Result<(), Stop>
    ensures { Did (failing kind) machine.old result machine.new }
{
    Err(Stop::Fault(kind))
}
