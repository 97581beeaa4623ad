//! The statements on links, at interaction points (ISO/IEC 9074: connect, disconnect, attach, detach).

ghost use Rattle.std.specs.Prelude.{◌≡◌, ◌||◌};
ghost use Rattle.estelle_model.specs.Subject.{Subject};
ghost use Rattle.estelle_model.specs.Actions as actions;
ghost use Rattle.body_state.specs.Follows.{Does, Follows, carried};

use crate::points::{connectable_at, external_at, may_attach, may_connect, point};
use body_state::{LogEntry, ModuleBodies, Walk, above, is_bound, is_connected, is_upper};
use body_values::{Stop, copy_address};
use estelle_model::Environment;
use estelle_tree::IpAddr;
use pascal_values::Fault;
use std::alloc::{AllocError, Global};

/// Connects two interaction points.
pub fn connect_points(
    alloc: Global,
    bodies: &ModuleBodies,
    walk: &mut Walk,
    here: &Environment,
    first: IpAddr,
    second: IpAddr,
) -> Result<(), Stop>
    ensures { Follows (carried (actions.connect_points bodies.now here.now.path first second)) walk.old result walk.new }
{
    if !may_connect(walk, bodies, &here.path, &first, &second) {
        return Err(Stop::Broken);
    }
    if are_bound(walk, &first, &second) {
        return Err(Stop::Fault(Fault::LinkTaken));
    }
    walk.make(alloc, LogEntry::Connect { first, second })?;
    Ok(())
}

fn are_bound(walk: &Walk, first: &IpAddr, second: &IpAddr) -> bool
    ensures { result ≡ (actions.is_bound first.now walk.now.links || actions.is_bound second.now walk.now.links) }
{
    let links = walk.links();
    is_bound(first, links) || is_bound(second, links)
}

/// Disconnects an interaction point, which the instance may connect.
pub fn disconnect_point(
    alloc: Global,
    bodies: &ModuleBodies,
    walk: &mut Walk,
    here: &Environment,
    a: IpAddr,
) -> Result<(), Stop>
    ensures { Follows (carried (actions.disconnect_point bodies.now here.now.path a)) walk.old result walk.new }
{
    if !connectable_at(&here.path, &a, point(walk, bodies, &a)) {
        return Err(Stop::Broken);
    }
    if !is_connected(&a, walk.links()) {
        return Err(Stop::Fault(Fault::LinkAbsent));
    }
    walk.make(alloc, LogEntry::Disconnect { a })?;
    Ok(())
}

/// Attaches an interaction point of an instance to one of its child.
pub fn attach_points(
    alloc: Global,
    bodies: &ModuleBodies,
    walk: &mut Walk,
    upper: IpAddr,
    lower: IpAddr,
) -> Result<(), Stop>
    ensures { Follows (carried (actions.attach_points bodies.now upper lower)) walk.old result walk.new }
{
    if !may_attach(walk, bodies, &upper, &lower) {
        return Err(Stop::Broken);
    }
    if are_taken(walk, &upper, &lower) {
        return Err(Stop::Fault(Fault::LinkTaken));
    }
    walk.make(alloc, LogEntry::Attach { upper, lower })?;
    Ok(())
}

fn are_taken(walk: &Walk, upper: &IpAddr, lower: &IpAddr) -> bool
    ensures { result ≡ (actions.is_upper upper.now walk.now.links || actions.is_bound lower.now walk.now.links) }
{
    let links = walk.links();
    is_upper(upper, links) || is_bound(lower, links)
}

/// Detaches an interaction point of an instance from that of its child.
pub fn detach_point(
    alloc: Global,
    bodies: &ModuleBodies,
    walk: &mut Walk,
    upper: IpAddr,
) -> Result<(), Stop>
    ensures { Follows (carried (actions.detach_point bodies.now upper)) walk.old result walk.new }
{
    if !external_at(point(walk, bodies, &upper)) {
        return Err(Stop::Broken);
    }
    if !is_upper(&upper, walk.links()) {
        return Err(Stop::Fault(Fault::LinkAbsent));
    }
    walk.make(alloc, LogEntry::Detach { upper })?;
    Ok(())
}

/// Disconnects an interaction point if it is connected.
pub fn disconnect_if(alloc: Global, walk: &mut Walk, a: &IpAddr) -> Result<(), AllocError>
    ensures { (s : Subject) → Does (carried (actions.disconnect_if s a.now)) walk.old result walk.new }
{
    if !is_connected(a, walk.links()) {
        return Ok(());
    }
    let a = copy_address(alloc, a)?;
    walk.make(alloc, LogEntry::Disconnect { a })?;
    Ok(())
}

/// Detaches an interaction point if it is a lower end.
pub fn detach_if(alloc: Global, walk: &mut Walk, a: &IpAddr) -> Result<(), AllocError>
    ensures { (s : Subject) → Does (carried (actions.detach_if s a.now)) walk.old result walk.new }
{
    match above(walk.links(), a) {
        None => Ok(()),
        Some(upper) => {
            let upper = copy_address(alloc, upper)?;
            walk.make(alloc, LogEntry::Detach { upper })?;
            Ok(())
        }
    }
}
