//! Interaction points by their names.

ghost use Rattle.estelle_model.specs.Actions as actions;
ghost use Rattle.body_values.specs.Gives.{Gives};
ghost use Rattle.body_state.specs.Follows.{Follows, carried};
ghost use Rattle.body_walker_blocks.specs.Points.{ip_at};
ghost use Rattle.body_walker_blocks.specs.Scopes.{meanings};
ghost use Rattle.body_walker_blocks.specs.Walked as walked;

use crate::scope::Scope;
use body_state::Walk;
use body_values::Stop;
use estelle_model::{Environment, Meaning};
use estelle_tree::{IpAddr, Name, Path};
use std::alloc::Global;

/// The child that a module variable holds.
fn child_named(
    scope: &Scope,
    alloc: Global,
    here: &Environment,
    walk: &Walk,
    name: &Name,
) -> Result<Path, Stop>
    ensures { Follows (carried (actions.child_in scope.now.subject here.now.path (meanings scope.now name.now))) walk.now result walk.now }
{
    match scope.meaning(name) {
        Meaning::Module(number) => walk.child(alloc, &here.path, *number),
        _ => Err(Stop::Broken),
    }
}

/// An interaction point of an instance.
fn ip_of(path: Path, meaning: &Meaning) -> Result<IpAddr, Stop>
    ensures { Gives (ip_at path meaning.now) result }
{
    match meaning {
        Meaning::Ip(ip) => Ok(IpAddr { path, ip: *ip }),
        _ => Err(Stop::Broken),
    }
}

/// An interaction point of the instance itself.
pub fn own_ip(scope: &Scope, alloc: Global, here: &Environment, name: &Name) -> Result<IpAddr, Stop>
    ensures { Gives (ip_at here.now.path (meanings scope.now name.now)) result }
{
    let path = here.path.copy(alloc)?;
    ip_of(path, scope.meaning(name))
}

/// An interaction point of the child in a module variable.
pub fn part_of_child(
    scope: &Scope,
    alloc: Global,
    here: &Environment,
    walk: &Walk,
    name: &Name,
    part: &Name,
) -> Result<IpAddr, Stop>
    ensures { Follows (walked.part_of_child scope.now here.now name.now part.now) walk.now result walk.now }
{
    let child = child_named(scope, alloc, here, walk, name)?;
    ip_of(child, scope.meaning(part))
}

/// An interaction point of the instance, or of a child.
pub fn ip_named(
    scope: &Scope,
    alloc: Global,
    here: &Environment,
    walk: &Walk,
    name: &Name,
    part: &Option<Name>,
) -> Result<IpAddr, Stop>
    ensures { Follows (walked.ip_named scope.now here.now name.now part.now) walk.now result walk.now }
{
    match part {
        None => own_ip(scope, alloc, here, name),
        Some(part) => part_of_child(scope, alloc, here, walk, name, part),
    }
}
