//! The frames of blocks and routines (ISO 7185, 6.2.3).

ghost use Rattle.std.specs.Prelude.{◌≡◌, ◌≤◌, [], ◌∷◌, ◌++◌, ◌-◌, map, take, length, IfOk, OnOk, OnErr};
ghost use Rattle.pascal_values.specs.declared.value.Value.TheVariants.{Unset, Fields};
ghost use Rattle.pascal_values.specs.Shapes.{blank_of};
ghost use Rattle.estelle_model.specs.Types.{shape_of};
ghost use Rattle.estelle_model.specs.Calls.{last_or};
ghost use Rattle.estelle_model.specs.Meant.{value_types, result_types, result_number};

use crate::whole::blank;
use estelle_model::{Passing, Routine, Type};
use pascal_values::{Value, Values};
use std::alloc::{AllocError, Global};

/// Adds variables of some types as they begin.
pub fn add_blanks(alloc: Global, values: &mut Values, types: &[Type]) -> Result<(), AllocError>
    ensures { IfOk result (λ _. values.new ≡ values.old ++ map blank_of (map shape_of types.now)) }
{
    for each in types {
        values.push(blank(alloc, each.denoter())?)?;
    }
    Ok(())
}

/// The values of a frame: those that are given, the routine's own variables, and a function's result.
pub fn with_locals(
    alloc: Global,
    routine: &Routine<'_>,
    given: Values,
) -> Result<Values, AllocError>
    ensures { IfOk result (λ vs. vs ≡ given ++ map blank_of (map shape_of (routine.now.locals ++ result_types routine.now.result))) }
{
    let mut values = given;
    add_blanks(alloc, &mut values, routine.locals.as_slice())?;
    if let Some(of_result) = &routine.result {
        values.push(blank(alloc, of_result.denoter())?)?;
    }
    Ok(values)
}

/// The number of a function's result in its frame.
pub fn result_number(routine: &Routine<'_>) -> usize
    ensures { result ≡ result_number routine.now }
{
    let parameters = routine.parameters.as_slice();
    let locals = routine.locals.as_slice();
    count_values(parameters) + locals.len()
}

fn count_values(parameters: &[Passing]) -> usize
    ensures count { result ≡ length (value_types parameters.now) }
    ensures bound { result ≤ length parameters.now }
{
    let mut count = 0;
    for parameter in parameters {
        count += places(parameter);
    }
    count
}

/// How many places of a frame a parameter takes.
fn places(parameter: &Passing) -> usize
    ensures count { result ≡ length (value_types (parameter.now ∷ [])) }
    ensures bound { result ≤ 1 }
{
    match parameter {
        Passing::ByValue(_) => 1,
        Passing::ByPlace => 0,
    }
}

/// Adds a frame.
pub fn push_frame(frames: &mut Vec<Value>, values: Values) -> Result<(), AllocError>
    ensures ok { OnOk result (frames.new.items ≡ frames.old.items ++ Fields values ∷ []) }
    ensures err { OnErr result (frames.new.items ≡ frames.old.items) }
{
    match frames.push(Value::Fields(values)) {
        Ok(()) => Ok(()),
        Err(_) => Err(AllocError),
    }
}

/// Takes the innermost frame off.
pub fn pop_frame(frames: &mut Vec<Value>) -> Value
    ensures last { result ≡ last_or Unset frames.old.items }
    ensures rest { frames.new.items ≡ take (length frames.old.items - 1) frames.old.items }
{
    match frames.pop() {
        Some(frame) => frame,
        None => Value::Unset,
    }
}
