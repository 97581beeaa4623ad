//! Guards: `provided` and the delay, each by its unit (ISO/IEC 9074).

ghost use Rattle.std.specs.Prelude.{◌≡◌, ◌||◌, is_none, Some};
ghost use Rattle.estelle_tree.specs.declared.tree.expression.Expr.{Expr};
ghost use Rattle.estelle_tree.specs.declared.tree.clause.DelayHigh.TheVariants as later;
ghost use Rattle.estelle_model.specs.States.{Logged};
ghost use Rattle.estelle_model.specs.Steps.{Running};
ghost use Rattle.estelle_model.specs.Expressions.{bool_step};
ghost use Rattle.estelle_model.specs.Belonging.{are_values_of};
ghost use Rattle.estelle_model.specs.Subject.{Subject};
ghost use Rattle.body_state.specs.Progress.{running};
ghost use Rattle.body_state.specs.Follows.{Leads};
ghost use Rattle.body_machine_meaning.specs.Executed.{value_left, delay_left};
ghost use Rattle.body_machine_jobs.specs.Stands.{Stands, Tells, walked};
ghost use Rattle.body_machine_jobs.specs.Answered.{IsProvided, Waits, Delays, Holds};

use crate::units::run_to_end;
use body_code::{Code, Entry};
use body_jobs::{at_once, from_both, from_one};
use body_machine::{Item, Stack};
use body_numbers::Numbers;
use body_state::{ModuleBodies, Walk};
use body_values::{Stop, are_values_of, bool_of, copy_values};
use estelle_model::Guard;
use estelle_tree::{DelayHigh, Path, Sequence};
use flat_transitions::Transition;
use pascal_values::{Value, Values};
use std::alloc::Global;

/// The one value that is left.
fn value_left(stack: Stack) -> Result<Value, Stop>
    ensures { (u : Running Logged) → Leads (value_left stack) u result u }
{
    let mut stack = stack;
    match stack.pop() {
        Some(Item::Datum(value)) => match stack.pop() {
            None => Ok(value),
            Some(_) => Err(Stop::Broken),
        },
        _ => Err(Stop::Broken),
    }
}

/// The truth value that is left.
fn truth_left(stack: Stack) -> Result<bool, Stop>
    ensures { (u : Running Logged) → Leads (bool_step (value_left stack)) u result u }
{
    match value_left(stack) {
        Ok(value) => bool_of(&value),
        Err(stop) => Err(stop),
    }
}

/// A delay between the two values that are left, the second one on top.
fn between_left(stack: Stack) -> Result<Guard, Stop>
    ensures { (s : Subject) (e : Expr) (u : Running Logged) → Leads (delay_left s (Some (later.Expr e)) stack) u result u }
{
    let mut stack = stack;
    match stack.pop() {
        Some(Item::Datum(high)) => match value_left(stack) {
            Ok(low) => from_both(&low, &high),
            Err(stop) => Err(stop),
        },
        _ => Err(Stop::Broken),
    }
}

/// A delay whose second value is written.
fn written(stack: Stack, high: &DelayHigh) -> Result<Guard, Stop>
    ensures { (s : Subject) (u : Running Logged) → Leads (delay_left s (Some high.now) stack) u result u }
{
    match high {
        DelayHigh::Star => match value_left(stack) {
            Ok(low) => from_one(&low),
            Err(stop) => Err(stop),
        },
        DelayHigh::Expr(_) => between_left(stack),
    }
}

/// The delay by the values that are left.
fn delay_left(stack: Stack, high: &Option<DelayHigh>) -> Result<Guard, Stop>
    ensures { (s : Subject) (u : Running Logged) → Leads (delay_left s high.now stack) u result u }
{
    match high {
        None => match value_left(stack) {
            Ok(low) => from_both(&low, &low),
            Err(stop) => Err(stop),
        },
        Some(later) => written(stack, later),
    }
}

/// Whether a `provided` may be asked of what was received, where one is written.
fn may_ask(transition: &Transition, values: &Values) -> bool
    ensures { result ≡ (is_none transition.now.provided || are_values_of transition.now.received values.now) }
{
    transition.provided().is_none() || are_values_of(transition.received(), values.items())
}

/// Whether `provided` is true, and the walk behind its unit.
fn provided<'a>(
    alloc: Global,
    bodies: &ModuleBodies,
    numbers: &Numbers,
    code: &'a Code,
    walk: Walk<'a>,
    body: u32,
    trans: u32,
    path: &Path,
    transition: &Transition,
    values: &Values,
) -> Result<(bool, Walk<'a>), Stop>
    ensures { Stands walked (IsProvided bodies.now numbers.now code.now path.now values.now body trans transition.now (running walk.entry)) result }
{
    if !may_ask(transition, values) {
        return Err(Stop::Broken);
    }
    let entry = Entry::Guard(trans);
    let values = copy_values(alloc, values)?;
    match run_to_end(
        alloc, bodies, numbers, code, walk, body, entry, path, values,
    ) {
        Ok(ended) => {
            let (stack, walk) = ended;
            match truth_left(stack) {
                Ok(holds) => Ok((holds, walk)),
                Err(stop) => Err(stop),
            }
        }
        Err(stop) => Err(stop),
    }
}

/// The delay by its unit.
fn waits<'a>(
    alloc: Global,
    bodies: &ModuleBodies,
    numbers: &Numbers,
    code: &'a Code,
    walk: Walk<'a>,
    body: u32,
    trans: u32,
    path: &Path,
    transition: &Transition,
    values: &Values,
    high: &Option<DelayHigh>,
) -> Result<Guard, Stop>
    ensures { Tells (Waits bodies.now numbers.now code.now path.now values.now body trans transition.now high.now (running walk.entry)) result }
{
    if !are_values_of(transition.received(), values.items()) {
        return Err(Stop::Broken);
    }
    let entry = Entry::Delay(trans);
    let values = copy_values(alloc, values)?;
    match run_to_end(
        alloc, bodies, numbers, code, walk, body, entry, path, values,
    ) {
        Ok(ended) => {
            let (stack, _) = ended;
            delay_left(stack, high)
        }
        Err(stop) => Err(stop),
    }
}

/// The delay as a guard. Where a timer runs, nothing of it is evaluated.
fn delay<'a>(
    alloc: Global,
    bodies: &ModuleBodies,
    numbers: &Numbers,
    code: &'a Code,
    walk: Walk<'a>,
    body: u32,
    trans: u32,
    path: &Path,
    transition: &Transition,
    values: &Values,
    timed: bool,
) -> Result<Guard, Stop>
    ensures { Tells (Delays bodies.now numbers.now code.now path.now values.now timed body trans transition.now (running walk.entry)) result }
{
    match transition.delay() {
        None => Ok(at_once()),
        Some(delay) => {
            if timed {
                return Ok(at_once());
            }
            waits(
                alloc,
                bodies,
                numbers,
                code,
                walk,
                body,
                trans,
                path,
                transition,
                values,
                delay.high(),
            )
        }
    }
}

/// `provided`, and where it is true the delay, on one walk.
pub fn guard<'a>(
    alloc: Global,
    bodies: &ModuleBodies,
    numbers: &Numbers,
    code: &'a Code,
    walk: Walk<'a>,
    body: u32,
    trans: u32,
    path: &Path,
    transition: &Transition,
    values: &Values,
    timed: bool,
) -> Result<Guard, Stop>
    ensures { Tells (Holds bodies.now numbers.now code.now path.now values.now timed body trans transition.now (running walk.entry)) result }
{
    match provided(
        alloc, bodies, numbers, code, walk, body, trans, path, transition, values,
    ) {
        Ok(asked) => {
            let (holds, walk) = asked;
            if !holds {
                return Ok(Guard::Off);
            }
            delay(
                alloc, bodies, numbers, code, walk, body, trans, path, transition, values, timed,
            )
        }
        Err(stop) => Err(stop),
    }
}
