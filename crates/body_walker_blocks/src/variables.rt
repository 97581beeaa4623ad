//! Variable accesses (ISO 7185, 6.5): their indices are evaluated from left to right.

ghost use Rattle.body_state.specs.Follows.{Follows};
ghost use Rattle.body_walker_blocks.specs.Walked as walked;

use crate::expressions::ordinal;
use crate::places::{begun, behind_beginning, field, item, result_of};
use crate::reached::Reached;
use crate::scope::Scope;
use body_state::Walk;
use body_values::Stop;
use estelle_model::{Environment, Meaning};
use estelle_tree::{Expr, Selector, Sequence, Variable};
use std::alloc::Global;

/// A variable by what its name means, and its selectors.
#[cycle(walk)]
pub fn accessed<'t>(
    scope: &'t Scope,
    alloc: Global,
    here: &Environment,
    walk: &mut Walk,
    meaning: &'t Meaning,
    selectors: &[Selector],
) -> Result<Reached<'t>, Stop>
    ensures { Follows (walked.accessed scope.now here.now meaning.now selectors.now) walk.old result walk.new }
{
    let mut reached = begun(scope, alloc, here, walk, meaning, selectors)?;
    for selector in behind_beginning(meaning, selectors) {
        reached = selected(scope, alloc, here, walk, reached, selector)?;
    }
    Ok(reached)
}

/// The component that a selector selects.
#[cycle(walk)]
fn selected<'t>(
    scope: &'t Scope,
    alloc: Global,
    here: &Environment,
    walk: &mut Walk,
    reached: Reached<'t>,
    selector: &Selector,
) -> Result<Reached<'t>, Stop>
    ensures { Follows (walked.selected scope.now here.now reached.entry selector.now) walk.old result walk.new }
{
    match selector {
        Selector::Field(name) => field(scope.meaning(name), reached),
        Selector::Index(exprs) => indexed(scope, alloc, here, walk, reached, exprs.items()),
    }
}

/// An item behind one index after another, each tested directly after its evaluation.
#[cycle(walk)]
fn indexed<'t>(
    scope: &'t Scope,
    alloc: Global,
    here: &Environment,
    walk: &mut Walk,
    array: Reached<'t>,
    exprs: &[Expr],
) -> Result<Reached<'t>, Stop>
    ensures { Follows (walked.indexed scope.now here.now array.entry exprs.now) walk.old result walk.new }
{
    let mut reached = array;
    for index in exprs {
        let number = ordinal(scope, alloc, here, walk, index)?;
        reached = item(reached, number)?;
    }
    Ok(reached)
}

/// What stands on the left of an assignment: a variable, or the result of the function that runs.
#[cycle(walk)]
pub fn target<'t>(
    scope: &'t Scope,
    alloc: Global,
    here: &Environment,
    walk: &mut Walk,
    variable: &Variable,
) -> Result<Reached<'t>, Stop>
    ensures { Follows (walked.target scope.now here.now variable.now) walk.old result walk.new }
{
    let meaning = scope.meaning(&variable.name);
    match meaning {
        Meaning::Called(routine) => result_of(alloc, here, routine),
        _ => accessed(
            scope,
            alloc,
            here,
            walk,
            meaning,
            variable.selectors.items(),
        ),
    }
}
