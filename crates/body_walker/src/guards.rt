//! Guards: `provided` and the delay (ISO/IEC 9074).

ghost use Rattle.std.specs.Prelude.{◌≡◌, false, Some};
ghost use Rattle.estelle_model.specs.States.{Logged, on_log};
ghost use Rattle.estelle_model.specs.Transitions.{Transition};
ghost use Rattle.estelle_model.specs.Subject.{meant_with};
ghost use Rattle.estelle_model.specs.Clauses as clauses;
ghost use Rattle.estelle_model.specs.Expressions.{bool_step};
ghost use Rattle.meaning_table.specs.Known.{meanings_of};
ghost use Rattle.body_state.specs.Follows.{Follows};
ghost use Rattle.body_walker.specs.Runs.{clause_begins, bounds_step};

use body_jobs::{at_once, from_both, from_one};
use body_state::{ModuleBodies, Walk};
use body_values::{Stop, are_values_of, bool_of, copy_values};
use body_walker_blocks::clause;
use estelle_model::Guard;
use estelle_tree::{DelayHigh, Expr, Path, Sequence};
use flat_transitions::{Delay, Transition};
use meaning_table::Table;
use pascal_values::{Value, Values};
use std::alloc::Global;

/// Begins a clause in a frame with what was received, which must be values of the transition's interaction.
fn begin(
    alloc: Global,
    walk: &mut Walk,
    transition: &Transition,
    values: &Values,
) -> Result<(), Stop>
    ensures { Follows (clause_begins transition.now values.now) walk.old result walk.new }
{
    if !are_values_of(transition.received(), values.items()) {
        return Err(Stop::Broken);
    }
    let values = copy_values(alloc, values)?;
    walk.enter_values(alloc, values)
}

/// The truth value of an expression in a clause.
fn truth(
    table: &Table,
    bodies: &ModuleBodies,
    alloc: Global,
    walk: &mut Walk,
    path: &Path,
    node: &Expr,
) -> Result<bool, Stop>
    ensures { (t : Transition) → meant_with bodies.now t.chosen ≡ meanings_of table.now → Follows (bool_step (clauses.value_of_expr Logged on_log bodies.now path.now t node.now)) walk.old result walk.new }
{
    match clause(table, bodies, alloc, walk, path, node) {
        Ok(value) => bool_of(&value),
        Err(stop) => Err(stop),
    }
}

fn holds(
    table: &Table,
    bodies: &ModuleBodies,
    alloc: Global,
    walk: &mut Walk,
    path: &Path,
    transition: &Transition,
    values: &Values,
    node: &Expr,
) -> Result<bool, Stop>
    ensures { meant_with bodies.now transition.now.chosen ≡ meanings_of table.now → Follows (clauses.provided_step Logged on_log bodies.now path.now transition.now values.now (Some node.now)) walk.old result walk.new }
{
    match begin(alloc, walk, transition, values) {
        Ok(()) => match truth(table, bodies, alloc, walk, path, node) {
            Ok(holds) => {
                walk.leave_values(alloc);
                Ok(holds)
            }
            Err(stop) => Err(stop),
        },
        Err(stop) => Err(stop),
    }
}

fn provided(
    table: &Table,
    bodies: &ModuleBodies,
    alloc: Global,
    walk: &mut Walk,
    path: &Path,
    transition: &Transition,
    values: &Values,
) -> Result<bool, Stop>
    ensures { meant_with bodies.now transition.now.chosen ≡ meanings_of table.now → Follows (clauses.provided_step Logged on_log bodies.now path.now transition.now values.now transition.now.provided) walk.old result walk.new }
{
    match transition.provided() {
        None => Ok(true),
        Some(node) => holds(table, bodies, alloc, walk, path, transition, values, node),
    }
}

/// The second value of a delay, and then both as a guard.
fn high(
    table: &Table,
    bodies: &ModuleBodies,
    alloc: Global,
    walk: &mut Walk,
    path: &Path,
    low: &Value,
    high: &Option<DelayHigh>,
) -> Result<Guard, Stop>
    ensures { (t : Transition) → meant_with bodies.now t.chosen ≡ meanings_of table.now → Follows (clauses.high_step Logged on_log bodies.now path.now t low.now high.now) walk.old result walk.new }
{
    match high {
        None => from_both(low, low),
        Some(later) => written(table, bodies, alloc, walk, path, low, later),
    }
}

fn written(
    table: &Table,
    bodies: &ModuleBodies,
    alloc: Global,
    walk: &mut Walk,
    path: &Path,
    low: &Value,
    high: &DelayHigh,
) -> Result<Guard, Stop>
    ensures { (t : Transition) → meant_with bodies.now t.chosen ≡ meanings_of table.now → Follows (clauses.high_step Logged on_log bodies.now path.now t low.now (Some high.now)) walk.old result walk.new }
{
    match high {
        DelayHigh::Star => from_one(low),
        DelayHigh::Expr(node) => match clause(table, bodies, alloc, walk, path, node) {
            Ok(high) => from_both(low, &high),
            Err(stop) => Err(stop),
        },
    }
}

/// The values of a delay, one after the other, as a guard.
fn bounds(
    table: &Table,
    bodies: &ModuleBodies,
    alloc: Global,
    walk: &mut Walk,
    path: &Path,
    delay: &Delay,
) -> Result<Guard, Stop>
    ensures { (t : Transition) → meant_with bodies.now t.chosen ≡ meanings_of table.now → Follows (bounds_step bodies.now path.now t delay.now) walk.old result walk.new }
{
    match clause(table, bodies, alloc, walk, path, delay.low()) {
        Ok(low) => high(table, bodies, alloc, walk, path, &low, delay.high()),
        Err(stop) => Err(stop),
    }
}

fn waits(
    table: &Table,
    bodies: &ModuleBodies,
    alloc: Global,
    walk: &mut Walk,
    path: &Path,
    transition: &Transition,
    values: &Values,
    delay: &Delay,
) -> Result<Guard, Stop>
    ensures { meant_with bodies.now transition.now.chosen ≡ meanings_of table.now → Follows (clauses.delay_step Logged on_log bodies.now path.now transition.now values.now false (Some delay.now)) walk.old result walk.new }
{
    match begin(alloc, walk, transition, values) {
        Ok(()) => match bounds(table, bodies, alloc, walk, path, delay) {
            Ok(guard) => {
                walk.leave_values(alloc);
                Ok(guard)
            }
            Err(stop) => Err(stop),
        },
        Err(stop) => Err(stop),
    }
}

/// A delay as a guard. Where a timer runs, nothing of it is evaluated.
fn delay(
    table: &Table,
    bodies: &ModuleBodies,
    alloc: Global,
    walk: &mut Walk,
    path: &Path,
    transition: &Transition,
    values: &Values,
    timed: bool,
) -> Result<Guard, Stop>
    ensures { meant_with bodies.now transition.now.chosen ≡ meanings_of table.now → Follows (clauses.delay_step Logged on_log bodies.now path.now transition.now values.now timed transition.now.delay) walk.old result walk.new }
{
    match transition.delay() {
        None => Ok(at_once()),
        Some(delay) => {
            if timed {
                return Ok(at_once());
            }
            waits(table, bodies, alloc, walk, path, transition, values, delay)
        }
    }
}

/// `provided`, and where it is true the delay.
pub(crate) fn guard(
    table: &Table,
    bodies: &ModuleBodies,
    alloc: Global,
    walk: &mut Walk,
    path: &Path,
    transition: &Transition,
    values: &Values,
    timed: bool,
) -> Result<Guard, Stop>
    ensures { meant_with bodies.now transition.now.chosen ≡ meanings_of table.now → Follows (clauses.guard_step Logged on_log bodies.now path.now transition.now values.now timed) walk.old result walk.new }
{
    match provided(table, bodies, alloc, walk, path, transition, values) {
        Ok(holds) => {
            if !holds {
                return Ok(Guard::Off);
            }
            delay(table, bodies, alloc, walk, path, transition, values, timed)
        }
        Err(stop) => Err(stop),
    }
}
