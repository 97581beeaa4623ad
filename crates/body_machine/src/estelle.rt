//! The statements of Estelle, by numbers (ISO/IEC 9074).

ghost use Rattle.std.specs.Prelude.{◌≡◌, IfOk};
ghost use Rattle.std.specs.Option.{option_copied};
ghost use Rattle.estelle_model.specs.Actions.{at};
ghost use Rattle.body_state.specs.Follows.{Follows};
ghost use Rattle.body_machine.specs.Ends.{end_at, connect_ends, disconnect_ends, attach_end, detach_end, release_in, output_of, output_with};
ghost use Rattle.body_machine.specs.Rows.{acting, sending};
ghost use Rattle.body_machine.specs.Seen.{Did};

use crate::given::values_of;
use crate::machine::Machine;
use crate::values::stuck;
use body_actions::{
    attach_points, connect_points, detach_point, disconnect_child, disconnect_point, output_at,
    release_child,
};
use body_code::{Ends, Point};
use body_state::{ModuleBodies, Walk};
use body_values::Stop;
use estelle_model::{Environment, InteractionKind};
use estelle_tree::{IpAddr, Path, Word};
use pascal_values::Values;
use std::alloc::{AllocError, Global};

/// A point of the instance.
fn own(alloc: Global, path: &Path, ip: u32) -> Result<IpAddr, AllocError>
    ensures { IfOk result (λ a. a ≡ at path.now ip) }
{
    Ok(IpAddr {
        path: path.copy(alloc)?,
        ip,
    })
}

/// A point of the instance, or of the child in a module variable.
fn end(alloc: Global, walk: &Walk, path: &Path, point: Point) -> Result<IpAddr, Stop>
    ensures { Follows (end_at path.now point) walk.now result walk.now }
{
    match point {
        Point::Own(ip) => Ok(own(alloc, path, ip)?),
        Point::OfChild { modvar, ip } => {
            let child = walk.child(alloc, path, modvar)?;
            Ok(IpAddr { path: child, ip })
        }
    }
}

pub fn connect(
    alloc: Global,
    bodies: &ModuleBodies,
    machine: &mut Machine,
    first: Point,
    second: Point,
) -> Result<(), Stop>
    ensures { Did (acting (connect_ends bodies.now machine.old.active.here.path first second)) machine.old result machine.new }
{
    let here = &machine.active.here;
    let a = end(alloc, &machine.walk, &here.path, first)?;
    let b = end(alloc, &machine.walk, &here.path, second)?;
    connect_points(alloc, bodies, &mut machine.walk, here, a, b)?;
    machine.advance()?;
    Ok(())
}

/// Disconnects one point, or each connected one of the child in a module variable.
fn disconnect_ends(
    alloc: Global,
    bodies: &ModuleBodies,
    walk: &mut Walk,
    here: &Environment,
    ends: Ends,
) -> Result<(), Stop>
    ensures { Follows (disconnect_ends bodies.now here.now.path ends) walk.old result walk.new }
{
    match ends {
        Ends::Point(point) => {
            let a = end(alloc, walk, &here.path, point)?;
            disconnect_point(alloc, bodies, walk, here, a)
        }
        Ends::Child(modvar) => {
            let child = walk.child(alloc, &here.path, modvar)?;
            disconnect_child(alloc, bodies, walk, &child)
        }
    }
}

pub fn disconnect(
    alloc: Global,
    bodies: &ModuleBodies,
    machine: &mut Machine,
    ends: Ends,
) -> Result<(), Stop>
    ensures { Did (acting (disconnect_ends bodies.now machine.old.active.here.path ends)) machine.old result machine.new }
{
    disconnect_ends(alloc, bodies, &mut machine.walk, &machine.active.here, ends)?;
    machine.advance()?;
    Ok(())
}

pub fn attach(
    alloc: Global,
    bodies: &ModuleBodies,
    machine: &mut Machine,
    upper: u32,
    lower: Point,
) -> Result<(), Stop>
    ensures { Did (acting (attach_end bodies.now machine.old.active.here.path upper lower)) machine.old result machine.new }
{
    let path = &machine.active.here.path;
    let b = end(alloc, &machine.walk, path, lower)?;
    let a = own(alloc, path, upper)?;
    attach_points(alloc, bodies, &mut machine.walk, a, b)?;
    machine.advance()?;
    Ok(())
}

pub fn detach(
    alloc: Global,
    bodies: &ModuleBodies,
    machine: &mut Machine,
    upper: u32,
) -> Result<(), Stop>
    ensures { Did (acting (detach_end bodies.now machine.old.active.here.path upper)) machine.old result machine.new }
{
    let a = own(alloc, &machine.active.here.path, upper)?;
    detach_point(alloc, bodies, &mut machine.walk, a)?;
    machine.advance()?;
    Ok(())
}

pub fn release(
    alloc: Global,
    bodies: &ModuleBodies,
    machine: &mut Machine,
    modvar: u32,
) -> Result<(), Stop>
    ensures { Did (acting (release_in bodies.now machine.old.active.here.path modvar)) machine.old result machine.new }
{
    let path = &machine.active.here.path;
    let child = machine.walk.child(alloc, path, modvar)?;
    release_child(alloc, bodies, &mut machine.walk, path, modvar, &child)?;
    machine.advance()?;
    Ok(())
}

/// An interaction with values, where the point and the interaction have such numbers.
fn send(
    alloc: Global,
    bodies: &ModuleBodies,
    walk: &mut Walk,
    path: &Path,
    ip: u32,
    word: Option<&Word>,
    kind: Option<&InteractionKind>,
    values: Values,
) -> Result<(), Stop>
    ensures { Follows (output_of bodies.now path.now ip (option_copied word.entry) (option_copied kind.entry) values) walk.old result walk.new }
{
    let Some(word) = word else {
        return Err(stuck());
    };
    let Some(kind) = kind else {
        return Err(stuck());
    };
    let a = own(alloc, path, ip)?;
    output_at(alloc, bodies, walk, word, &kind.word, kind, values, a)
}

/// Outputs an interaction with the topmost values; it takes a unit.
pub fn output(
    alloc: Global,
    bodies: &ModuleBodies,
    machine: &mut Machine,
    ip: u32,
    word: Option<&Word>,
    kind: Option<&InteractionKind>,
    arguments: u32,
) -> Result<(), Stop>
    ensures { Did (sending arguments (output_with bodies.now machine.old.active.here.path ip (option_copied word.entry) (option_copied kind.entry))) machine.old result machine.new }
{
    let Some(items) = machine.active.stack.take_top(arguments as usize)? else {
        return Err(stuck());
    };
    let Some(values) = values_of(alloc, items)? else {
        return Err(stuck());
    };
    machine.walk.spend()?;
    let path = &machine.active.here.path;
    send(
        alloc,
        bodies,
        &mut machine.walk,
        path,
        ip,
        word,
        kind,
        values,
    )?;
    machine.advance()?;
    Ok(())
}
