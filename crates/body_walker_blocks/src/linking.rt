//! The statements of Estelle that evaluate nothing (ISO/IEC 9074: connect, disconnect, attach, detach, release).

ghost use Rattle.body_state.specs.Follows.{Follows};
ghost use Rattle.body_walker_blocks.specs.Walked as walked;

use crate::points::{ip_named, own_ip, part_of_child};
use crate::scope::Scope;
use body_actions::{
    attach_points, connect_points, detach_point, disconnect_child, disconnect_point, release_child,
};
use body_state::Walk;
use body_values::Stop;
use estelle_model::{Environment, Meaning};
use estelle_tree::{Ip, Name};
use std::alloc::Global;

pub fn connect(
    scope: &Scope,
    alloc: Global,
    here: &Environment,
    walk: &mut Walk,
    first: &Ip,
    second: &Ip,
) -> Result<(), Stop>
    ensures { Follows (walked.connect scope.now here.now first.now second.now) walk.old result walk.new }
{
    let a = ip_named(scope, alloc, here, walk, &first.name, &first.part)?;
    let b = ip_named(scope, alloc, here, walk, &second.name, &second.part)?;
    connect_points(alloc, scope.bodies(), walk, here, a, b)
}

/// One interaction point.
fn disconnect_ip(
    scope: &Scope,
    alloc: Global,
    here: &Environment,
    walk: &mut Walk,
    node: &Ip,
) -> Result<(), Stop>
    ensures { Follows (walked.disconnect_ip scope.now here.now node.now.name node.now.part) walk.old result walk.new }
{
    let a = ip_named(scope, alloc, here, walk, &node.name, &node.part)?;
    disconnect_point(alloc, scope.bodies(), walk, here, a)
}

/// Each connected interaction point of the child in a module variable.
fn disconnect_module(
    scope: &Scope,
    alloc: Global,
    here: &Environment,
    walk: &mut Walk,
    number: u32,
) -> Result<(), Stop>
    ensures { Follows (walked.disconnect_module scope.now here.now number) walk.old result walk.new }
{
    let child = walk.child(alloc, &here.path, number)?;
    disconnect_child(alloc, scope.bodies(), walk, &child)
}

pub fn disconnect(
    scope: &Scope,
    alloc: Global,
    here: &Environment,
    walk: &mut Walk,
    node: &Ip,
) -> Result<(), Stop>
    ensures { Follows (walked.disconnect scope.now here.now node.now) walk.old result walk.new }
{
    match &node.part {
        Some(_) => disconnect_ip(scope, alloc, here, walk, node),
        None => match scope.meaning(&node.name) {
            Meaning::Module(number) => disconnect_module(scope, alloc, here, walk, *number),
            _ => disconnect_ip(scope, alloc, here, walk, node),
        },
    }
}

pub fn attach(
    scope: &Scope,
    alloc: Global,
    here: &Environment,
    walk: &mut Walk,
    own: &Name,
    modvar: &Name,
    ip: &Name,
) -> Result<(), Stop>
    ensures { Follows (walked.attach scope.now here.now own.now modvar.now ip.now) walk.old result walk.new }
{
    let upper = own_ip(scope, alloc, here, own)?;
    let lower = part_of_child(scope, alloc, here, walk, modvar, ip)?;
    attach_points(alloc, scope.bodies(), walk, upper, lower)
}

pub fn detach(
    scope: &Scope,
    alloc: Global,
    here: &Environment,
    walk: &mut Walk,
    own: &Name,
) -> Result<(), Stop>
    ensures { Follows (walked.detach scope.now here.now own.now) walk.old result walk.new }
{
    let upper = own_ip(scope, alloc, here, own)?;
    detach_point(alloc, scope.bodies(), walk, upper)
}

pub fn release(
    scope: &Scope,
    alloc: Global,
    here: &Environment,
    walk: &mut Walk,
    modvar: &Name,
) -> Result<(), Stop>
    ensures { Follows (walked.release scope.now here.now modvar.now) walk.old result walk.new }
{
    match scope.meaning(modvar) {
        Meaning::Module(number) => {
            let child = walk.child(alloc, &here.path, *number)?;
            release_child(alloc, scope.bodies(), walk, &here.path, *number, &child)
        }
        _ => Err(Stop::Broken),
    }
}
