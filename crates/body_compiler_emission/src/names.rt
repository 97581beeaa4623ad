//! Names in expressions, variable accesses, and calls of routines (ISO 7185, 6.5 to 6.7.3).

ghost use Rattle.std.specs.Prelude.{◌≡◌, [], IfOk, OnOk, Some, drop, map};
ghost use Rattle.estelle_model.specs.declared.meaning.Passing.TheVariants.{ByValue};
ghost use Rattle.body_compiler_emission.specs.Drafts.{grown};
ghost use Rattle.body_compiler_emission.specs.Tails.{Computes, placed, reached};
ghost use Rattle.body_compiler_emission.specs.Emitted as emitted;
ghost use Rattle.body_compiler_emission.specs.EmittedStatements as statements;

use crate::draft::{Draft, number};
use crate::expressions::{expr, place};
use crate::operators::required;
use crate::places::{begun, first_selector, item};
use crate::scope::Scope;
use body_code::Instr;
use body_values::{field_of, item_of};
use estelle_model::{Denoter, Host, Meaning, Passing, Routine, Type, host_of};
use estelle_tree::{Args, Expr, Name, Selector, Sequence};
use pascal_values::copy;
use std::alloc::AllocError;

/// A name with selectors in an expression: a constant, a function without arguments, or a variable.
#[cycle(values)]
#[tactic(auto, using(crate::proofs::FactorSteps::constant_value, crate::proofs::FactorSteps::constant_host, crate::proofs::FactorSteps::function_is))]
pub fn valued(
    scope: &Scope,
    unit: &mut Draft,
    name: &Name,
    selectors: &[Selector],
) -> Result<Host, AllocError>
    ensures { IfOk result (λ h. Computes (emitted.valued scope.now name.now selectors.now) h unit.old unit.new) }
{
    let meaning = scope.meaning(name);
    match meaning {
        Meaning::Constant { value, host } => {
            unit.push(Instr::Push(copy(scope.alloc, value)?))?;
            Ok(*host)
        }
        Meaning::Called(routine) => lone_function(scope, unit, name, routine),
        _ => {
            let denoter = accessed(scope, unit, meaning, selectors)?;
            unit.push(Instr::Load)?;
            Ok(host_of(denoter))
        }
    }
}

/// The place of a variable.
#[cycle(values)]
pub fn named_place(
    scope: &Scope,
    unit: &mut Draft,
    name: &Name,
    selectors: &[Selector],
) -> Result<(), AllocError>
    ensures { OnOk result (Some unit.new ≡ placed (emitted.valued scope.now name.now selectors.now).place unit.old) }
{
    let meaning = scope.meaning(name);
    match meaning {
        Meaning::Constant { .. } | Meaning::Called(_) => Err(AllocError),
        _ => {
            accessed(scope, unit, meaning, selectors)?;
            Ok(())
        }
    }
}

/// A function designator.
#[cycle(values)]
#[tactic(auto, using(crate::proofs::FactorSteps::designated_call, crate::proofs::FactorSteps::required_steps))]
pub fn designated(
    scope: &Scope,
    unit: &mut Draft,
    name: &Name,
    exprs: &[Expr],
) -> Result<Host, AllocError>
    ensures { IfOk result (λ h. Computes (emitted.designated scope.now name.now exprs.now) h unit.old unit.new) }
{
    match scope.meaning(name) {
        Meaning::Called(routine) => function(scope, unit, exprs, name, routine),
        Meaning::RequiredFunction(named) => {
            if exprs.len() != 1 {
                return Err(AllocError);
            }
            let host = expr(scope, unit, &exprs[0])?;
            let computed = required(scope, unit, *named, host)?;
            Ok(computed)
        }
        _ => Err(AllocError),
    }
}

/// A call of a function without arguments.
#[tactic(auto, using(crate::proofs::FactorSteps::called_value, crate::proofs::FactorSteps::called_host, crate::proofs::FactorSteps::lone_call))]
fn lone_function(
    scope: &Scope,
    unit: &mut Draft,
    name: &Name,
    routine: &Routine,
) -> Result<Host, AllocError>
    ensures { IfOk result (λ h. Computes (emitted.called scope.now name.now routine.now []) h unit.old unit.new) }
{
    if routine.parameters.len() != 0 {
        return Err(AllocError);
    }
    let Some((body, at)) = scope.routine(name) else {
        return Err(AllocError);
    };
    match &routine.result {
        None => Err(AllocError),
        Some(denoter) => {
            unit.push(Instr::Call {
                body,
                routine: at,
                arguments: 0,
            })?;
            Ok(host_of(denoter.denoter()))
        }
    }
}

/// A call of a function, which alone has a value.
#[cycle(values)]
#[tactic(auto, using(crate::proofs::FactorSteps::called_value, crate::proofs::FactorSteps::called_host))]
fn function(
    scope: &Scope,
    unit: &mut Draft,
    exprs: &[Expr],
    name: &Name,
    routine: &Routine,
) -> Result<Host, AllocError>
    ensures { IfOk result (λ h. Computes (emitted.called scope.now name.now routine.now exprs.now) h unit.old unit.new) }
{
    match &routine.result {
        None => Err(AllocError),
        Some(denoter) => {
            call(scope, unit, exprs, name, routine)?;
            Ok(host_of(denoter.denoter()))
        }
    }
}

/// A call of a routine.
#[cycle(values)]
#[tactic(auto, using(crate::proofs::FactorSteps::call_made))]
pub fn call(
    scope: &Scope,
    unit: &mut Draft,
    exprs: &[Expr],
    name: &Name,
    routine: &Routine,
) -> Result<(), AllocError>
    ensures { OnOk result (unit.new ≡ grown (emitted.call scope.now name.now routine.now exprs.now) unit.old) }
{
    let Some((body, at)) = scope.routine(name) else {
        return Err(AllocError);
    };
    let parameters = routine.parameters.items();
    let arguments = number(parameters.len())?;
    give_all(scope, unit, exprs, parameters)?;
    unit.push(Instr::Call {
        body,
        routine: at,
        arguments,
    })
}

/// The arguments from left to right.
#[cycle(values)]
fn give_all(
    scope: &Scope,
    unit: &mut Draft,
    exprs: &[Expr],
    parameters: &[Passing],
) -> Result<(), AllocError>
    ensures { OnOk result (unit.new ≡ grown (emitted.give_all scope.now parameters.now exprs.now) unit.old) }
{
    if exprs.len() != parameters.len() {
        return Err(AllocError);
    }
    for i in 0..exprs.len() {
        give(scope, unit, &exprs[i], &parameters[i])?;
    }
    Ok(())
}

/// One argument more: a value, which must fit its parameter's type, or a place.
#[cycle(values)]
#[tactic(auto, using(crate::proofs::FactorSteps::given_place))]
fn give(scope: &Scope, unit: &mut Draft, actual: &Expr, passing: &Passing) -> Result<(), AllocError>
    ensures { OnOk result (unit.new ≡ grown (emitted.give scope.now passing.now actual.now) unit.old) }
{
    match passing {
        Passing::ByValue(denoter) => give_value(scope, unit, actual, denoter),
        Passing::ByPlace => place(scope, unit, actual),
    }
}

/// One value more, which must fit its parameter's type.
#[cycle(values)]
#[tactic(auto, using(crate::proofs::FactorSteps::given_value))]
pub fn give_value(
    scope: &Scope,
    unit: &mut Draft,
    actual: &Expr,
    denoter: &Type,
) -> Result<(), AllocError>
    ensures { OnOk result (unit.new ≡ grown (emitted.give scope.now (ByValue denoter.now) actual.now) unit.old) }
{
    let shape = scope.shape(denoter.denoter())?;
    expr(scope, unit, actual)?;
    unit.push(Instr::Fit(shape))
}

/// Values from left to right, for parameters of some types.
pub fn value_arguments(
    scope: &Scope,
    unit: &mut Draft,
    types: &[Type],
    exprs: &[Expr],
) -> Result<(), AllocError>
    ensures { OnOk result (unit.new ≡ grown (emitted.give_all scope.now (map ByValue types.now) exprs.now) unit.old) }
{
    if exprs.len() != types.len() {
        return Err(AllocError);
    }
    for i in 0..exprs.len() {
        give_value(scope, unit, &exprs[i], &types[i])?;
    }
    Ok(())
}

/// The arguments of a procedure statement.
pub fn exprs_of(args: &Option<Args>) -> &[Expr]
    ensures { result.now ≡ statements.exprs_of args.now }
{
    match args {
        None => &[],
        Some(args) => args.exprs.items(),
    }
}

/// The place of a variable by what its name means, and the type of what is kept there.
#[cycle(values)]
#[tactic(auto, using(crate::proofs::AccessSteps::accessed_steps))]
pub fn accessed<'t>(
    scope: &'t Scope,
    unit: &mut Draft,
    meaning: &'t Meaning,
    selectors: &[Selector],
) -> Result<&'t Denoter, AllocError>
    ensures { IfOk result (λ d. Some (unit.new, d.now) ≡ reached (emitted.accessed scope.now meaning.now selectors.now) unit.old) }
{
    let begun = begun(scope, unit, meaning, selectors)?;
    let denoter = behind(scope, unit, selectors, first_selector(meaning), begun)?;
    Ok(denoter)
}

/// One component of another, from a selector on.
#[cycle(values)]
fn behind<'t>(
    scope: &'t Scope,
    unit: &mut Draft,
    selectors: &[Selector],
    first: usize,
    begun: &'t Denoter,
) -> Result<&'t Denoter, AllocError>
    ensures { IfOk result (λ d. Some (unit.new, d.now) ≡ emitted.behind scope.now (drop first selectors.now) unit.old begun.now) }
{
    let mut denoter = begun;
    for i in first..selectors.len() {
        denoter = selected(scope, unit, &selectors[i], denoter)?;
    }
    Ok(denoter)
}

/// The component that a selector selects.
#[cycle(values)]
#[tactic(auto, unfolding(crate::specs::Emitted::selected))]
fn selected<'t>(
    scope: &'t Scope,
    unit: &mut Draft,
    selector: &Selector,
    denoter: &'t Denoter,
) -> Result<&'t Denoter, AllocError>
    ensures { IfOk result (λ d. Some (unit.new, d.now) ≡ emitted.selected scope.now selector.now unit.old denoter.now) }
{
    match selector {
        Selector::Field(name) => match scope.meaning(name) {
            Meaning::Field(number) => {
                unit.push(Instr::Field(*number))?;
                Ok(field_of(denoter, *number))
            }
            _ => Err(AllocError),
        },
        Selector::Index(exprs) => indexed(scope, unit, exprs.items(), denoter),
    }
}

/// An item behind one index after another, each tested directly after its evaluation.
#[cycle(values)]
#[tactic(auto, using(crate::proofs::AccessSteps::indexed_steps))]
fn indexed<'t>(
    scope: &Scope,
    unit: &mut Draft,
    exprs: &[Expr],
    array: &'t Denoter,
) -> Result<&'t Denoter, AllocError>
    ensures { IfOk result (λ d. (unit.new, d.now) ≡ emitted.indexed scope.now exprs.now unit.old array.now) }
{
    let mut denoter = array;
    for index in exprs {
        expr(scope, unit, index)?;
        unit.push(Instr::Ord)?;
        item(unit, denoter)?;
        denoter = item_of(denoter);
    }
    Ok(denoter)
}
