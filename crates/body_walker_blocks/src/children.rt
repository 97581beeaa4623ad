//! New children (ISO/IEC 9074: init).

ghost use Rattle.body_state.specs.Follows.{Follows};
ghost use Rattle.body_walker_blocks.specs.Walked as walked;
ghost use Rattle.body_walker_blocks.specs.Walked.{IsBody};

use crate::calls::{MAX_DEPTH, value_arguments, within};
use crate::labels::exprs_of;
use crate::scope::Scope;
use body_actions::{begin_child, hold_child, may_begin};
use body_state::{ModuleBody, Walk};
use body_values::Stop;
use estelle_model::{Environment, Meaning};
use estelle_tree::{Args, Items, Name, SequenceMut};
use pascal_values::{Fault, Values};
use std::alloc::Global;

/// An `init`: the arguments come first.
#[cycle(walk)]
pub fn init(
    scope: &Scope,
    alloc: Global,
    here: &Environment,
    walk: &mut Walk,
    modvar: &Name,
    body: &Name,
    args: &Option<Args>,
) -> Result<(), Stop>
    ensures { Follows (walked.init scope.now here.now modvar.now body.now args.now) walk.old result walk.new }
{
    let Meaning::Module(variable) = scope.meaning(modvar) else {
        return Err(Stop::Broken);
    };
    let Meaning::Body(number) = scope.meaning(body) else {
        return Err(Stop::Broken);
    };
    let types = scope.bodies().parameters(*number);
    let given = value_arguments(scope, alloc, here, walk, types, exprs_of(args))?;
    create(scope, alloc, here, walk, *variable, *number, given.values)
}

/// A child of the body with a number: the tests, the unit and the depth, then whether the variable is empty. The child
/// is made and runs its initialization, takes its state, and then the variable holds it.
#[cycle(walk)]
fn create(
    scope: &Scope,
    alloc: Global,
    here: &Environment,
    walk: &mut Walk,
    variable: u32,
    number: u32,
    values: Values,
) -> Result<(), Stop>
    ensures { Follows (walked.create scope.now here.now variable number values) walk.old result walk.new }
{
    may_begin(scope.bodies(), walk, &here.path, variable, number, &values)?;
    let Some(body) = scope.bodies().get(number) else {
        return Err(Stop::Broken);
    };
    walk.spend()?;
    if here.frame >= MAX_DEPTH {
        return Err(Stop::Fault(Fault::CallDepth));
    }
    let path = begin_child(alloc, walk, &here.path, variable, number, body, values)?;
    let inner = Environment {
        path,
        frame: here.frame + 1,
        references: Items::new(alloc),
    };
    initialize(scope, alloc, &inner, walk, body)?;
    let Environment {
        path,
        frame: _,
        references: _,
    } = inner;
    hold_child(alloc, walk, &here.path, variable, body, path)
}

/// The initialization of a body, in its frame.
#[cycle(walk)]
fn initialize(
    scope: &Scope,
    alloc: Global,
    here: &Environment,
    walk: &mut Walk,
    body: &ModuleBody,
) -> Result<(), Stop>
    requires { IsBody scope.now body.now }
    ensures { Follows (walked.initialize scope.now here.now body.now) walk.old result walk.new }
{
    match &body.initialization {
        None => Ok(()),
        Some(initialization) => {
            let none = Values::none(alloc);
            within(scope, alloc, here, walk, &initialization.block, none)?;
            Ok(())
        }
    }
}
