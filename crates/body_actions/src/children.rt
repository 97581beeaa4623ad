//! Children of instances: what begins and ends them (ISO/IEC 9074: init, release).

ghost use Rattle.std.specs.Prelude.{◌≡◌, ◌+◌, map, slice_get, Some, IfOk};
ghost use Rattle.std.specs.FinMap as maps;
ghost use Rattle.estelle_tree.specs.Paths.{last_of};
ghost use Rattle.estelle_model.specs.Core.{Instance};
ghost use Rattle.estelle_model.specs.Operators.{◌>>>◌};
ghost use Rattle.estelle_model.specs.Plans.{for_each};
ghost use Rattle.estelle_model.specs.Bodies.{BodyAlone};
ghost use Rattle.estelle_model.specs.Subject.{Subject, new_instance};
ghost use Rattle.estelle_model.specs.Actions as actions;
ghost use Rattle.body_state.specs.Bodies.{module_body, state_after};
ghost use Rattle.body_actions.specs.Children.{external_of, beginning, begins_child};
ghost use Rattle.body_values.specs.Gives.{Gives};
ghost use Rattle.body_state.specs.Follows.{Does, Follows, carried};

use crate::linking::{detach_if, disconnect_if};
use body_state::{Alteration, LogEntry, ModuleBodies, ModuleBody, Walk, new_part};
use body_values::{Stop, are_values_of};
use estelle_model::Part;
use estelle_tree::{IpAddr, Path, Sequence};
use pascal_values::{Fault, Values};
use std::alloc::{AllocError, Global};

/// How many external interaction points an instance has.
fn external(bodies: &ModuleBodies, walk: &Walk, path: &Path) -> Result<u32, Stop>
    ensures { Gives (external_of bodies.now (maps.get walk.now.instances path.now)) result }
{
    match walk.instance(path) {
        None => Err(Stop::Fault(Fault::NoModule)),
        Some(part) => Ok(bodies.external(part.body)),
    }
}

fn point_of(alloc: Global, path: &Path, ip: u32) -> Result<IpAddr, AllocError>
    ensures { IfOk result (λ a. a ≡ actions.at path.now ip) }
{
    Ok(IpAddr {
        path: path.copy(alloc)?,
        ip,
    })
}

/// Disconnects each of so many interaction points that is connected.
fn disconnect_points(
    alloc: Global,
    walk: &mut Walk,
    path: &Path,
    count: u32,
) -> Result<(), AllocError>
    ensures { (s : Subject) → Does (carried (for_each (actions.disconnect_if s) (map (actions.at path.now) (actions.count_from 0 count)))) walk.old result walk.new }
{
    for ip in 0..count {
        let a = point_of(alloc, path, ip)?;
        disconnect_if(alloc, walk, &a)?;
    }
    Ok(())
}

/// Disconnects each connected interaction point of a child.
pub fn disconnect_child(
    alloc: Global,
    bodies: &ModuleBodies,
    walk: &mut Walk,
    path: &Path,
) -> Result<(), Stop>
    ensures { Follows (carried (actions.disconnect_child bodies.now path.now)) walk.old result walk.new }
{
    let count = external(bodies, walk, path)?;
    disconnect_points(alloc, walk, path, count)?;
    Ok(())
}

/// Disconnects an interaction point and detaches it, where it is linked so.
fn free_point(alloc: Global, walk: &mut Walk, a: &IpAddr) -> Result<(), AllocError>
    ensures { (s : Subject) → Does (carried (actions.free_point s a.now)) walk.old result walk.new }
{
    disconnect_if(alloc, walk, a)?;
    detach_if(alloc, walk, a)?;
    Ok(())
}

/// Frees each of so many interaction points.
fn free_points(alloc: Global, walk: &mut Walk, path: &Path, count: u32) -> Result<(), AllocError>
    ensures { (s : Subject) → Does (carried (for_each (actions.free_point s) (map (actions.at path.now) (actions.count_from 0 count)))) walk.old result walk.new }
{
    for ip in 0..count {
        let a = point_of(alloc, path, ip)?;
        free_point(alloc, walk, &a)?;
    }
    Ok(())
}

/// The birth number of an instance.
fn last_of(path: &Path) -> u64
    ensures { result ≡ last_of path.now }
{
    match path.items() {
        [] => 0,
        [.., last] => *last,
    }
}

/// Frees each external interaction point of a child, which then vanishes with all below it; the variable is empty.
pub fn release_child(
    alloc: Global,
    bodies: &ModuleBodies,
    walk: &mut Walk,
    parent: &Path,
    variable: u32,
    child: &Path,
) -> Result<(), Stop>
    ensures { Follows (carried (actions.release_child bodies.now parent.now variable child.now)) walk.old result walk.new }
{
    let count = external(bodies, walk, child)?;
    free_points(alloc, walk, child, count)?;
    let removed = LogEntry::Remove {
        parent: parent.copy(alloc)?,
        number: last_of(child),
    };
    walk.make(alloc, removed)?;
    let by = Alteration::Hold {
        variable,
        held: None,
    };
    walk.keep(alloc, parent, by)?;
    Ok(())
}

/// Tests whether an instance may make a child of a body with these parameters, for one of its module variables.
pub fn may_begin(
    bodies: &ModuleBodies,
    walk: &Walk,
    parent: &Path,
    variable: u32,
    number: u32,
    values: &Values,
) -> Result<(), Stop>
    ensures { Gives (beginning bodies.now variable number values.now (maps.get walk.now.instances parent.now)) result }
{
    match walk.instance(parent) {
        None => Err(Stop::Fault(Fault::NoModule)),
        Some(part) => {
            let types = bodies.parameters(number);
            if bodies.may_hold(part.body, variable, number)
                && are_values_of(types, values.items())
            {
                Ok(())
            } else {
                Err(Stop::Broken)
            }
        }
    }
}

/// Whether a module variable is empty.
fn is_empty(part: &Part, variable: u32) -> Result<(), Stop>
    ensures { Gives (actions.empty_in (slice_get part.now.modvars variable)) result }
{
    match part.modvars.get(variable as usize) {
        Some(None) => Ok(()),
        _ => Err(Stop::Fault(Fault::ModuleTaken)),
    }
}

/// The number of the next child, if the module variable for it is empty.
fn next_number(part: &Part, variable: u32) -> Result<u64, Stop>
    ensures { Gives (actions.empty_in (slice_get part.now.modvars variable) >>> λ ok. Ok (part.now.births + 1)) result }
{
    is_empty(part, variable)?;
    match part.births.checked_add(1) {
        Some(number) => Ok(number),
        None => Err(Stop::Memory),
    }
}

/// Makes a child of a body, for a module variable that is empty, and gives its path.
pub fn begin_child(
    alloc: Global,
    walk: &mut Walk,
    parent: &Path,
    variable: u32,
    number: u32,
    body: &ModuleBody,
    values: Values,
) -> Result<Path, Stop>
    ensures { (s : Subject) (b : BodyAlone) (i : Instance) → body.now ≡ module_body s number b → maps.get walk.old.instances parent.now ≡ Some i → Follows (begins_child s parent.now variable i (new_instance s number b values)) walk.old result walk.new }
{
    let birth = match walk.instance(parent) {
        None => return Err(Stop::Fault(Fault::NoModule)),
        Some(part) => next_number(part, variable)?,
    };
    let path = parent.child(alloc, birth)?;
    let part = new_part(alloc, path.copy(alloc)?, number, body, values)?;
    let created = LogEntry::Create {
        parent: parent.copy(alloc)?,
        number: birth,
        part,
    };
    walk.make(alloc, created)?;
    Ok(path)
}

/// The state after the initialization of a body.
fn state_after(body: &ModuleBody) -> Option<u32>
    ensures { result ≡ state_after body.now }
{
    match &body.initialization {
        None => None,
        Some(initialization) => initialization.to,
    }
}

/// A child that was initialized takes its state, and then the module variable holds it.
pub fn hold_child(
    alloc: Global,
    walk: &mut Walk,
    parent: &Path,
    variable: u32,
    body: &ModuleBody,
    child: Path,
) -> Result<(), Stop>
    ensures { (s : Subject) → Follows (carried (actions.holds_child s parent.now variable (state_after body.now) child)) walk.old result walk.new }
{
    walk.enter_state(alloc, &child, state_after(body))?;
    let by = Alteration::Hold {
        variable,
        held: Some(child),
    };
    walk.keep(alloc, parent, by)?;
    Ok(())
}
