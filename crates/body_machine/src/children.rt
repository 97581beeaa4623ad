//! Children that are made, and that their parents hold (ISO/IEC 9074: init).

ghost use Rattle.std.specs.Prelude.{◌≡◌};
ghost use Rattle.estelle_model.specs.Subject.{child_of};
ghost use Rattle.estelle_model.specs.Actions.{holds_child};
ghost use Rattle.body_state.specs.Follows.{Follows, carried};
ghost use Rattle.body_machine.specs.Ends.{makes_child};

use crate::frames::deepen;
use crate::values::stuck;
use body_actions::{begin_child, may_begin};
use body_state::{Alteration, ModuleBodies, Walk};
use body_values::Stop;
use estelle_model::Environment;
use estelle_tree::Path;
use pascal_values::Values;
use std::alloc::Global;

/// Makes a child of a body, behind the tests, the unit and the depth, and gives its path.
pub fn make_child(
    alloc: Global,
    bodies: &ModuleBodies,
    walk: &mut Walk,
    here: &Environment,
    modvar: u32,
    body: u32,
    values: Values,
) -> Result<Path, Stop>
    ensures { Follows (makes_child bodies.now here.now.path here.now.frame modvar body values) walk.old result walk.new }
{
    may_begin(bodies, walk, &here.path, modvar, body, &values)?;
    let Some(known) = bodies.get(body) else {
        return Err(stuck());
    };
    deepen(walk, here.frame)?;
    begin_child(alloc, walk, &here.path, modvar, body, known, values)
}

/// The state that a child of a body takes behind its initialization.
fn state_behind(bodies: &ModuleBodies, body: u32) -> Option<u32>
    ensures { result ≡ (child_of bodies.now body).to }
{
    match bodies.get(body) {
        None => None,
        Some(body) => match &body.initialization {
            None => None,
            Some(initialization) => initialization.to,
        },
    }
}

/// A child takes its state behind its initialization, and then a module variable of its parent holds it.
pub fn hold(
    alloc: Global,
    bodies: &ModuleBodies,
    walk: &mut Walk,
    parent: &Path,
    variable: u32,
    body: u32,
    child: Path,
) -> Result<(), Stop>
    ensures { Follows (carried (holds_child bodies.now parent.now variable (child_of bodies.now body).to child)) walk.old result walk.new }
{
    let to = state_behind(bodies, body);
    walk.enter_state(alloc, &child, to)?;
    let by = Alteration::Hold {
        variable,
        held: Some(child),
    };
    walk.keep(alloc, parent, by)?;
    Ok(())
}
