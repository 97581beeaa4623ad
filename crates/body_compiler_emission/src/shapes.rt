//! The shapes of locals.

ghost use Rattle.std.specs.Prelude.{◌≡◌, [], ◌∷◌, ◌++◌, IfOk, OnOk, map};
ghost use Rattle.estelle_model.specs.Types as spec;
ghost use Rattle.estelle_model.specs.Meant.{result_types};
ghost use Rattle.body_compiler_pieces.specs.UnitCode.{variable, AreParameters};

use body_code::Local;
use estelle_model::{Passing, Type};
use estelle_tree::{Items, Sequence};
use pascal_values::Shape;
use std::alloc::{AllocError, Global};
use type_shapes::shape_of;

/// One more local for a variable of a type.
fn push_variable(alloc: Global, locals: &mut Items<Local>, type_: &Type) -> Result<(), AllocError>
    ensures { OnOk result (locals.new ≡ locals.old ++ map variable (map spec.shape_of (type_.now ∷ []))) }
{
    locals.push(Local {
        shape: shape_of(alloc, type_.denoter())?,
        by_ref: false,
    })
}

/// Locals for variables of some types.
pub fn push_variables(
    alloc: Global,
    locals: &mut Items<Local>,
    types: &[Type],
) -> Result<(), AllocError>
    ensures { OnOk result (locals.new ≡ locals.old ++ map variable (map spec.shape_of types.now)) }
{
    for type_ in types {
        push_variable(alloc, locals, type_)?;
    }
    Ok(())
}

/// A function's result is a local too.
pub fn push_result(
    alloc: Global,
    locals: &mut Items<Local>,
    type_: &Option<Type>,
) -> Result<(), AllocError>
    ensures { OnOk result (locals.new ≡ locals.old ++ map variable (map spec.shape_of (result_types type_.now))) }
{
    match type_ {
        None => Ok(()),
        Some(type_) => push_variable(alloc, locals, type_),
    }
}

/// The local of a parameter. A var parameter's has the shape of the type that is handed in for it.
fn parameter(
    alloc: Global,
    passing: &Passing,
    reference: Option<&Type>,
) -> Result<Local, AllocError>
    ensures { IfOk result (λ l. AreParameters (passing.now ∷ []) (l ∷ [])) }
{
    match (passing, reference) {
        (Passing::ByValue(type_), _) => Ok(Local {
            shape: shape_of(alloc, type_.denoter())?,
            by_ref: false,
        }),
        (Passing::ByPlace, Some(type_)) => Ok(Local {
            shape: shape_of(alloc, type_.denoter())?,
            by_ref: true,
        }),
        (Passing::ByPlace, None) => Err(AllocError),
    }
}

/// How many var parameters a parameter is.
fn references_in(passing: &Passing) -> usize {
    match passing {
        Passing::ByValue(_) => 0,
        Passing::ByPlace => 1,
    }
}

/// The locals of parameters, with the types of those that are var parameters, in order.
#[tactic(auto, using(crate::proofs::UnitSteps::parameters_next, crate::proofs::UnitSteps::parameters_all))]
pub fn parameters(
    alloc: Global,
    passed: &[Passing],
    references: &[Type],
) -> Result<Items<Local>, AllocError>
    ensures { IfOk result (λ ls. AreParameters passed.now ls) }
{
    let mut locals = Items::new(alloc);
    let mut next: usize = 0;
    for passing in passed {
        locals.push(parameter(alloc, passing, references.get(next))?)?;
        next = next.saturating_add(references_in(passing));
    }
    Ok(locals)
}
