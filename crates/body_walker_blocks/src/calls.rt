//! Names in expressions, and calls of routines (ISO 7185, 6.6 and 6.7.3).

ghost use Rattle.estelle_model.specs.declared.meaning.Passing.TheVariants.{ByValue};
ghost use Rattle.body_state.specs.Follows.{Follows};
ghost use Rattle.body_walker_blocks.specs.Walked as walked;
ghost use Rattle.body_walker_blocks.specs.Walked.{IsKnown};

use crate::expressions::expr;
use crate::hosts::host;
use crate::operands::{fitted, variable_in, with_reference, with_value};
use crate::scope::Scope;
use crate::statements::stmts;
use crate::variables::accessed;
use body_state::Walk;
use body_values::{Stop, required_value, set_value};
use estelle_model::{ActualParameters, Environment, Meaning, Passing, Routine, Type};
use estelle_tree::{Expr, Items, Name, Selector, Sequence, SequenceMut};
use pascal_values::{Fault, Value, Values, copy};
use std::alloc::Global;

/// How deep calls and inits may nest.
pub const MAX_DEPTH: u32 = 200;

/// A name with selectors in an expression: a constant, a function without arguments, or a variable.
#[cycle(walk)]
pub fn valued(
    scope: &Scope,
    alloc: Global,
    here: &Environment,
    walk: &mut Walk,
    name: &Name,
    selectors: &[Selector],
) -> Result<Value, Stop>
    ensures { Follows (walked.valued scope.now here.now name.now selectors.now).value walk.old result walk.new }
{
    let meaning = scope.meaning(name);
    match meaning {
        Meaning::Constant { value, .. } => {
            let value = copy(alloc, value)?;
            Ok(value)
        }
        Meaning::Called(routine) => {
            let value = invoke(scope, alloc, here, walk, routine, &[])?;
            set_value(value)
        }
        _ => {
            let reached = accessed(scope, alloc, here, walk, meaning, selectors)?;
            walk.load(alloc, &reached.place)
        }
    }
}

/// A function designator.
#[cycle(walk)]
pub fn designated(
    scope: &Scope,
    alloc: Global,
    here: &Environment,
    walk: &mut Walk,
    name: &Name,
    exprs: &[Expr],
) -> Result<Value, Stop>
    ensures { Follows (walked.designated scope.now here.now name.now exprs.now).value walk.old result walk.new }
{
    match scope.meaning(name) {
        Meaning::Called(routine) => {
            let value = invoke(scope, alloc, here, walk, routine, exprs)?;
            set_value(value)
        }
        Meaning::RequiredFunction(required) => {
            if exprs.len() != 1 {
                return Err(Stop::Broken);
            }
            let argument = &exprs[0];
            let value = expr(scope, alloc, here, walk, argument)?;
            required_value(*required, host(scope, argument), &value)
        }
        _ => Err(Stop::Broken),
    }
}

/// A routine with these arguments; a procedure's result is unset.
#[cycle(walk)]
pub fn invoke(
    scope: &Scope,
    alloc: Global,
    here: &Environment,
    walk: &mut Walk,
    routine: &Routine,
    exprs: &[Expr],
) -> Result<Value, Stop>
    requires { IsKnown scope.now routine.now }
    ensures { Follows (walked.invoked scope.now here.now routine.now exprs.now) walk.old result walk.new }
{
    let given = arguments(scope, alloc, here, walk, routine.parameters.items(), exprs)?;
    call(scope, alloc, here, walk, routine, given)
}

/// The arguments from left to right.
#[cycle(walk)]
fn arguments(
    scope: &Scope,
    alloc: Global,
    here: &Environment,
    walk: &mut Walk,
    parameters: &[Passing],
    exprs: &[Expr],
) -> Result<ActualParameters, Stop>
    ensures { Follows (walked.arguments scope.now here.now parameters.now exprs.now) walk.old result walk.new }
{
    let mut given = ActualParameters {
        values: Values::none(alloc),
        references: Items::new(alloc),
    };
    for i in 0..exprs.len() {
        if i >= parameters.len() {
            return Err(Stop::Broken);
        }
        given = give(scope, alloc, here, walk, &parameters[i], &exprs[i], given)?;
    }
    if exprs.len() < parameters.len() {
        return Err(Stop::Broken);
    }
    Ok(given)
}

/// One argument more: a value, which must fit its parameter's type, or the place that a variable has now.
#[cycle(walk)]
fn give(
    scope: &Scope,
    alloc: Global,
    here: &Environment,
    walk: &mut Walk,
    passing: &Passing,
    actual: &Expr,
    given: ActualParameters,
) -> Result<ActualParameters, Stop>
    ensures { Follows (walked.give scope.now here.now passing.now actual.now given) walk.old result walk.new }
{
    match passing {
        Passing::ByValue(denoter) => {
            give_value(scope, alloc, here, walk, denoter, actual, given)
        }
        Passing::ByPlace => match variable_in(actual) {
            None => Err(Stop::Broken),
            Some(variable) => {
                let meaning = scope.meaning(&variable.name);
                let reached = accessed(
                    scope,
                    alloc,
                    here,
                    walk,
                    meaning,
                    variable.selectors.items(),
                )?;
                with_reference(given, reached.place)
            }
        },
    }
}

/// One value more, which must fit its parameter's type.
#[cycle(walk)]
fn give_value(
    scope: &Scope,
    alloc: Global,
    here: &Environment,
    walk: &mut Walk,
    denoter: &Type,
    actual: &Expr,
    given: ActualParameters,
) -> Result<ActualParameters, Stop>
    ensures { Follows (walked.give scope.now here.now (ByValue denoter.now) actual.now given) walk.old result walk.new }
{
    let value = expr(scope, alloc, here, walk, actual)?;
    let value = fitted(denoter, value)?;
    with_value(given, value)
}

/// Values from left to right, for parameters of some types.
#[cycle(walk)]
pub fn value_arguments(
    scope: &Scope,
    alloc: Global,
    here: &Environment,
    walk: &mut Walk,
    types: &[Type],
    exprs: &[Expr],
) -> Result<ActualParameters, Stop>
    ensures { Follows (walked.value_arguments scope.now here.now types.now exprs.now) walk.old result walk.new }
{
    let mut given = ActualParameters {
        values: Values::none(alloc),
        references: Items::new(alloc),
    };
    for i in 0..exprs.len() {
        if i >= types.len() {
            return Err(Stop::Broken);
        }
        given = give_value(scope, alloc, here, walk, &types[i], &exprs[i], given)?;
    }
    if exprs.len() < types.len() {
        return Err(Stop::Broken);
    }
    Ok(given)
}

/// A call, which takes a unit, and then tests how deep calls nest.
#[cycle(walk)]
fn call(
    scope: &Scope,
    alloc: Global,
    here: &Environment,
    walk: &mut Walk,
    routine: &Routine,
    given: ActualParameters,
) -> Result<Value, Stop>
    requires { IsKnown scope.now routine.now }
    ensures { Follows (walked.calling scope.now here.now routine.now given) walk.old result walk.new }
{
    walk.spend()?;
    if here.frame >= MAX_DEPTH {
        return Err(Stop::Fault(Fault::CallDepth));
    }
    let inner = Environment {
        path: here.path.copy(alloc)?,
        frame: here.frame + 1,
        references: given.references,
    };
    within(scope, alloc, &inner, walk, routine, given.values)
}

/// The statements of a routine in a frame of its own.
#[cycle(walk)]
pub fn within(
    scope: &Scope,
    alloc: Global,
    here: &Environment,
    walk: &mut Walk,
    routine: &Routine,
    values: Values,
) -> Result<Value, Stop>
    ensures { Follows (walked.within scope.now here.now routine.now values) walk.old result walk.new }
{
    walk.enter(alloc, routine, values)?;
    stmts(scope, alloc, here, walk, routine.body.get())?;
    walk.leave(routine)
}
