//! Units that run for themselves.

ghost use Rattle.std.specs.Prelude.{◌≡◌, Some, IfOk};
ghost use Rattle.body_code.specs.Units.{unit_of};
ghost use Rattle.body_state.specs.Progress.{running};
ghost use Rattle.body_machine.specs.Seen.{seen};
ghost use Rattle.body_machine_meaning.specs.Executed as meaning;
ghost use Rattle.body_machine_jobs.specs.Stands.{Stands, walked};

use body_code::{Code, CodeUnit, Entry};
use body_machine::{Activation, Machine, Return, Stack, add_blanks, after, run};
use body_numbers::Numbers;
use body_state::{ModuleBodies, Walk};
use body_values::Stop;
use estelle_tree::{Items, Path, Sequence};
use pascal_values::Values;
use std::alloc::{AllocError, Global};

/// The machine as a unit begins for itself, with these values for the first of its locals. No memory holds more of them than
/// numbers can tell.
pub fn started<'a>(
    alloc: Global,
    walk: Walk<'a>,
    body: u32,
    unit: &'a CodeUnit,
    path: &Path,
    values: Values,
) -> Result<Machine<'a>, AllocError>
    ensures { IfOk result (λ machine. seen machine ≡ meaning.started body unit.now path.now values (running walk.entry)) }
{
    let mut walk = walk;
    let mut values = values;
    let Ok(taken) = u32::try_from(values.items().len()) else {
        return Err(AllocError);
    };
    add_blanks(alloc, &mut values, after(unit.locals.items(), taken))?;
    walk.leave_values(alloc);
    walk.push_frame(values)?;
    let path = path.copy(alloc)?;
    let active = Activation::begun(
        alloc,
        body,
        unit,
        path,
        0,
        Items::new(alloc),
        Return::ToNone,
    );
    Ok(Machine {
        walk,
        active,
        waiting: Vec::new(alloc),
    })
}

/// Runs a unit of a body for itself to its end; what is left on its stack, and the walk behind it.
fn run_unit<'a>(
    alloc: Global,
    bodies: &ModuleBodies,
    numbers: &Numbers,
    code: &'a Code,
    walk: Walk<'a>,
    body: u32,
    unit: &'a CodeUnit,
    path: &Path,
    values: Values,
) -> Result<(Stack, Walk<'a>), Stop>
    ensures { Stands walked (meaning.RunsTo bodies.now numbers.now code.now body (Some unit.now) path.now values (running walk.entry)) result }
{
    let mut machine = started(alloc, walk, body, unit, path, values)?;
    match run(alloc, bodies, numbers, code, &mut machine) {
        Ok(()) => Ok(machine.into_left()),
        Err(stop) => Err(stop),
    }
}

/// The same of the unit of a body with an entry, if it is there.
pub fn run_to_end<'a>(
    alloc: Global,
    bodies: &ModuleBodies,
    numbers: &Numbers,
    code: &'a Code,
    walk: Walk<'a>,
    body: u32,
    entry: Entry,
    path: &Path,
    values: Values,
) -> Result<(Stack, Walk<'a>), Stop>
    ensures { Stands walked (meaning.RunsTo bodies.now numbers.now code.now body (unit_of code.now body entry) path.now values (running walk.entry)) result }
{
    match code.unit(body, entry) {
        None => Err(Stop::Broken),
        Some(unit) => run_unit(alloc, bodies, numbers, code, walk, body, unit, path, values),
    }
}
