//! Firings and the start.

ghost use Rattle.std.specs.Prelude.{◌≡◌, ℕ, ◌<◌, true, [], IfOk};
ghost use Rattle.body_code.specs.declared.unit.Entry.TheVariants as entry;
ghost use Rattle.body_code.specs.Units.{unit_of};
ghost use Rattle.estelle_model.specs.Blocks.{fresh};
ghost use Rattle.estelle_model.specs.Computed.{log_from};
ghost use Rattle.estelle_model.specs.Firing.{bare};
ghost use Rattle.estelle_model.specs.Subject.{begins, transition};
ghost use Rattle.body_state.specs.InOrder.{InOrder};
ghost use Rattle.body_jobs.specs.Jobs.{job_of};
ghost use Rattle.body_machine_meaning.specs.Executed.{FiresIf, Executes};
ghost use Rattle.body_machine_jobs.specs.Made.{Makes};

use crate::blocks::block;
use body_code::{Code, Entry};
use body_jobs::{body_at, initialization, nothing, received_values, root_image};
use body_numbers::Numbers;
use body_program::Program;
use body_state::{ModuleBodies, Walk};
use estelle_model::{Image, Interaction, Outcome};
use estelle_tree::{Path, Sequence, SequenceMut};
use pascal_values::Values;
use std::alloc::{AllocError, Global};

/// The state behind the initialization of the specification, if one is said.
fn first_state(bodies: &ModuleBodies) -> Option<u32>
    ensures { result ≡ (begins bodies.now 0).to }
{
    match initialization(bodies) {
        None => None,
        Some(first) => first.to,
    }
}

/// The initialization of the specification, on its instance alone.
fn start(
    alloc: Global,
    program: &Program,
    numbers: &Numbers,
    code: &Code,
    budget: u32,
) -> Result<(Outcome, u32), AllocError>
    ensures { IfOk result (λ made. Makes program.now numbers.now code.now true 0 (unit_of code.now 0 entry.Initialize) [] [] (fresh (log_from (bare program.now).core) budget) (begins program.now 0).to made.0 made.1) }
{
    let bodies = program.bodies();
    let image = root_image(alloc, bodies)?;
    let walk = Walk::owning(alloc, bodies, image, budget)?;
    let path = Path::root(alloc);
    let values = Values::none(alloc);
    let to = first_state(bodies);
    block(
        alloc,
        bodies,
        numbers,
        code,
        walk,
        0,
        Entry::Initialize,
        &path,
        &[],
        values,
        to,
    )
}

/// The transition of a body, both by their numbers, for an instance of it.
fn fire(
    alloc: Global,
    program: &Program,
    numbers: &Numbers,
    code: &Code,
    path: &Path,
    body: u32,
    trans: u32,
    image: Image,
    head: Option<Interaction>,
    budget: u32,
) -> Result<(Outcome, u32), AllocError>
    requires { InOrder image.parts }
    ensures { (ticket : ℕ) → IfOk result (λ made. FiresIf program.now numbers.now code.now (record (job_of path.now trans image head budget) { ticket = ticket }) body (transition program.now body trans) made.0 made.1) }
{
    match program.transition(body, trans) {
        None => Ok(nothing(budget)),
        Some(transition) => {
            let bodies = program.bodies();
            let walk = Walk::owning(alloc, bodies, image, budget)?;
            block(
                alloc,
                bodies,
                numbers,
                code,
                walk,
                body,
                Entry::Block(trans),
                path,
                transition.received(),
                received_values(alloc, head),
                transition.to(),
            )
        }
    }
}

/// What the code makes of the transition with a number, or of the initialization, which has the number 0.
pub fn compute(
    alloc: Global,
    program: &Program,
    numbers: &Numbers,
    code: &Code,
    path: &Path,
    trans: u32,
    image: Image,
    head: Option<Interaction>,
    budget: u32,
) -> Result<(Outcome, u32), AllocError>
    requires { 0 < trans → InOrder image.parts }
    ensures { (ticket : ℕ) → IfOk result (λ made. Executes program.now numbers.now code.now (record (job_of path.now trans image head budget) { ticket = ticket }) trans made.0 made.1) }
{
    if trans == 0 {
        return start(alloc, program, numbers, code, budget);
    }
    match body_at(image.parts.as_slice(), path) {
        None => Ok(nothing(budget)),
        Some(body) => fire(
            alloc, program, numbers, code, path, body, trans, image, head, budget,
        ),
    }
}
