//! Blocks of jobs.

ghost use Rattle.std.specs.Prelude.{true, Some, IfOk};
ghost use Rattle.body_code.specs.Units.{unit_of};
ghost use Rattle.estelle_model.specs.Belonging.{are_values_of};
ghost use Rattle.estelle_model.specs.Actions.{enters_state};
ghost use Rattle.estelle_model.specs.Computed.{IsMadeBy};
ghost use Rattle.body_state.specs.Progress.{running};
ghost use Rattle.body_state.specs.Follows.{carried};
ghost use Rattle.body_machine_jobs.specs.Made.{Makes};

use crate::units::started;
use body_code::{Code, CodeUnit, Entry};
use body_jobs::finish;
use body_machine::run;
use body_numbers::Numbers;
use body_state::{ModuleBodies, Walk};
use body_values::{Stop, are_values_of};
use estelle_model::{Outcome, Type};
use estelle_tree::{Path, Sequence};
use pascal_values::Values;
use std::alloc::{AllocError, Global};

/// An instance enters a state behind its block, if one is said; and what the run came to.
fn enter(
    alloc: Global,
    bodies: &ModuleBodies,
    walk: Walk,
    path: &Path,
    to: Option<u32>,
) -> Result<(Outcome, u32), AllocError>
    ensures { IfOk result (λ made. IsMadeBy bodies.now (carried (enters_state bodies.now path.now to) (running walk.entry)) made.0 made.1) }
{
    let mut walk = walk;
    let entered = walk.enter_state(alloc, path, to);
    finish(bodies, alloc, walk, entered)
}

/// Runs the unit of a block for itself, behind which the instance enters a state, if one is said.
fn run_block<'a>(
    alloc: Global,
    bodies: &ModuleBodies,
    numbers: &Numbers,
    code: &'a Code,
    walk: Walk<'a>,
    body: u32,
    unit: &'a CodeUnit,
    path: &Path,
    values: Values,
    to: Option<u32>,
) -> Result<(Outcome, u32), AllocError>
    ensures { IfOk result (λ made. Makes bodies.now numbers.now code.now true body (Some unit.now) path.now values (running walk.entry) to made.0 made.1) }
{
    let mut machine = started(alloc, walk, body, unit, path, values)?;
    match run(alloc, bodies, numbers, code, &mut machine) {
        Ok(()) => {
            let (_, walk) = machine.into_left();
            enter(alloc, bodies, walk, path, to)
        }
        Err(stop) => {
            let (_, walk) = machine.into_left();
            finish(bodies, alloc, walk, Err(stop))
        }
    }
}

/// The same of the unit of a body with an entry, if it is there, where what was received is of these types.
pub fn block<'a>(
    alloc: Global,
    bodies: &ModuleBodies,
    numbers: &Numbers,
    code: &'a Code,
    walk: Walk<'a>,
    body: u32,
    entry: Entry,
    path: &Path,
    types: &[Type],
    values: Values,
    to: Option<u32>,
) -> Result<(Outcome, u32), AllocError>
    ensures { IfOk result (λ made. Makes bodies.now numbers.now code.now (are_values_of types.now values) body (unit_of code.now body entry) path.now values (running walk.entry) to made.0 made.1) }
{
    if !are_values_of(types, values.items()) {
        return finish(bodies, alloc, walk, Err(Stop::Broken));
    }
    match code.unit(body, entry) {
        None => finish(bodies, alloc, walk, Err(Stop::Broken)),
        Some(unit) => run_block(
            alloc, bodies, numbers, code, walk, body, unit, path, values, to,
        ),
    }
}
