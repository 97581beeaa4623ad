//! Where variable accesses begin, and their components.

ghost use Rattle.std.specs.Prelude.{◌≡◌, IfOk};
ghost use Rattle.body_values.specs.Gives.{Gives};
ghost use Rattle.body_state.specs.Follows.{Follows};
ghost use Rattle.body_walker_blocks.specs.Accesses as spec;

use crate::reached::Reached;
use crate::scope::Scope;
use body_state::Walk;
use body_values::{Stop, copy_place, deeper, field_of, item_of, item_place};
use estelle_model::{Environment, Host, Meaning, Passing, Place, Routine, Type, host_of};
use estelle_tree::{Items, Path, Selector, Sequence};
use std::alloc::{AllocError, Global};

/// A variable of an instance.
fn of_instance<'t>(
    alloc: Global,
    path: &Path,
    number: u32,
    denoter: &'t Type,
) -> Result<Reached<'t>, AllocError>
    ensures { IfOk result (λ r. r ≡ spec.of_instance path.now number denoter.now) }
{
    Ok(Reached {
        place: Place::Of {
            path: path.copy(alloc)?,
            variable: number,
            way: Items::new(alloc),
        },
        denoter: denoter.denoter(),
    })
}

/// A variable of the block or routine that runs.
fn in_frame<'t>(alloc: Global, here: &Environment, number: u32, denoter: &'t Type) -> Reached<'t>
    ensures { result ≡ spec.in_frame here.now number denoter.now }
{
    Reached {
        place: Place::In {
            frame: here.frame,
            variable: number,
            way: Items::new(alloc),
        },
        denoter: denoter.denoter(),
    }
}

/// What a var parameter names.
fn referred<'t>(
    alloc: Global,
    here: &Environment,
    number: u32,
    denoter: &'t Type,
) -> Result<Reached<'t>, Stop>
    ensures { Gives (spec.referred here.now number denoter.now) result }
{
    match here.references.items().get(number as usize) {
        None => Err(Stop::Broken),
        Some(place) => {
            let place = copy_place(alloc, place)?;
            Ok(Reached {
                place,
                denoter: denoter.denoter(),
            })
        }
    }
}

/// An exported variable of the child that a module variable holds.
fn exported<'t>(
    alloc: Global,
    here: &Environment,
    walk: &Walk,
    holder: u32,
    meaning: &'t Meaning,
) -> Result<Reached<'t>, Stop>
    ensures { Follows (spec.exported here.now holder meaning.now) walk.now result walk.now }
{
    match meaning {
        Meaning::Exported { number, denoter } => {
            let path = walk.child(alloc, &here.path, holder)?;
            Ok(Reached {
                place: Place::Of {
                    path,
                    variable: *number,
                    way: Items::new(alloc),
                },
                denoter: denoter.denoter(),
            })
        }
        _ => Err(Stop::Broken),
    }
}

/// Where an access begins: a variable of a child behind a module variable.
fn behind_module<'t>(
    scope: &'t Scope,
    alloc: Global,
    here: &Environment,
    walk: &Walk,
    holder: u32,
    selectors: &[Selector],
) -> Result<Reached<'t>, Stop>
    ensures { Follows (spec.behind_module scope.now here.now holder selectors.now) walk.now result walk.now }
{
    match selectors {
        [Selector::Field(name), ..] => { exported(alloc, here, walk, holder, scope.meaning(name)) }
        _ => Err(Stop::Broken),
    }
}

/// Where an access begins.
pub fn begun<'t>(
    scope: &'t Scope,
    alloc: Global,
    here: &Environment,
    walk: &Walk,
    meaning: &'t Meaning,
    selectors: &[Selector],
) -> Result<Reached<'t>, Stop>
    ensures { Follows (spec.begun scope.now here.now meaning.now selectors.now) walk.now result walk.now }
{
    match meaning {
        Meaning::Own { number, denoter } => {
            let reached = of_instance(alloc, &here.path, *number, denoter)?;
            Ok(reached)
        }
        Meaning::Exported { number, denoter } => {
            let reached = of_instance(alloc, &here.path, *number, denoter)?;
            Ok(reached)
        }
        Meaning::Local { number, denoter } => Ok(in_frame(alloc, here, *number, denoter)),
        Meaning::Var { number, denoter } => referred(alloc, here, *number, denoter),
        Meaning::Module(holder) => behind_module(scope, alloc, here, walk, *holder, selectors),
        _ => Err(Stop::Broken),
    }
}

/// The selectors of an access behind where it begins.
pub fn behind_beginning<'s>(meaning: &Meaning, selectors: &'s [Selector]) -> &'s [Selector]
    ensures { result.now ≡ spec.behind_beginning meaning.now selectors.now }
{
    match (meaning, selectors) {
        (Meaning::Module(_), [_, rest @ ..]) => rest,
        _ => selectors,
    }
}

/// Whether a name alone names a variable.
pub fn is_variable(meaning: &Meaning) -> bool
    ensures { result ≡ spec.is_variable meaning.now }
{
    matches!(
        meaning,
        Meaning::Own { .. } | Meaning::Exported { .. } | Meaning::Local { .. } | Meaning::Var { .. }
    )
}

/// The host of the type of a variable that a name alone names.
pub fn variable_host(meaning: &Meaning) -> Host
    ensures { result ≡ spec.variable_host meaning.now }
{
    match meaning {
        Meaning::Own { denoter, .. }
        | Meaning::Exported { denoter, .. }
        | Meaning::Local { denoter, .. }
        | Meaning::Var { denoter, .. } => host_of(denoter.denoter()),
        _ => Host::Integer,
    }
}

/// The number of a function's result in its frame, behind its value parameters and its own variables.
fn result_number(routine: &Routine) -> Result<u32, AllocError>
    ensures { IfOk result (λ n. n ≡ spec.result_number routine.now) }
{
    let values = value_count(routine.parameters.items());
    let locals = routine.locals.items().len();
    match u32::try_from(values.saturating_add(locals)) {
        Ok(number) => Ok(number),
        Err(_) => Err(AllocError),
    }
}

/// How many of the parameters are value parameters.
fn value_count(parameters: &[Passing]) -> usize
    ensures { result ≡ spec.value_count parameters.now }
{
    let mut count = 0;
    for parameter in parameters {
        if matches!(parameter, Passing::ByValue(_)) {
            count += 1;
        }
    }
    count
}

/// The result of the function that runs.
pub fn result_of<'t>(
    alloc: Global,
    here: &Environment,
    routine: &'t Routine,
) -> Result<Reached<'t>, Stop>
    ensures { Gives (spec.result_of here.now routine.now) result }
{
    match &routine.result {
        None => Err(Stop::Broken),
        Some(denoter) => {
            let number = result_number(routine)?;
            Ok(in_frame(alloc, here, number, denoter))
        }
    }
}

/// A field of a record; a name of another kind breaks a rule.
pub fn field<'t>(meaning: &Meaning, reached: Reached<'t>) -> Result<Reached<'t>, Stop>
    ensures { Gives (spec.field meaning.now reached.entry) result }
{
    match meaning {
        Meaning::Field(number) => {
            let place = deeper(reached.place, *number)?;
            Ok(Reached {
                place,
                denoter: field_of(reached.denoter, *number),
            })
        }
        _ => Err(Stop::Broken),
    }
}

/// An item of an array, by the value of its index.
pub fn item<'t>(reached: Reached<'t>, index: i64) -> Result<Reached<'t>, Stop>
    ensures { Gives (spec.item reached.entry index) result }
{
    let number = item_place(reached.denoter, index)?;
    let place = deeper(reached.place, number)?;
    Ok(Reached {
        place,
        denoter: item_of(reached.denoter),
    })
}
