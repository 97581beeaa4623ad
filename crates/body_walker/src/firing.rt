//! Firings and the start.

ghost use Rattle.std.specs.Prelude.{◌≡◌, [], ◌<◌, IfOk};
ghost use Rattle.estelle_model.specs.Blocks.{fresh};
ghost use Rattle.estelle_model.specs.Subject.{meant, no_statements, transition};
ghost use Rattle.estelle_model.specs.Firing.{bare};
ghost use Rattle.estelle_model.specs.Computed.{core_of, log_from, start_run, IsMadeBy, IsOfTransition, IsComputedOf};
ghost use Rattle.meaning_table.specs.Known.{meanings_of};
ghost use Rattle.body_state.specs.Follows.{Follows};
ghost use Rattle.body_state.specs.InOrder.{InOrder};
ghost use Rattle.body_jobs.specs.Jobs.{job_of};
ghost use Rattle.body_walker.specs.Runs.{block_and_state};

use body_jobs::{body_at, finish, initialization, nothing, received_values, root_image};
use body_program::{Program, with_choices};
use body_state::{ModuleBodies, Walk};
use body_values::{Stop, are_values_of};
use body_walker_blocks::block;
use estelle_model::{Image, Interaction, Outcome, Routine, Statements, Type};
use estelle_tree::{Items, Path, Sequence, SequenceMut, Span, Stmts};
use meaning_table::Table;
use pascal_values::Values;
use std::alloc::{AllocError, Global};

/// Runs a block of an instance, which then enters a state, if one is said. What it received must be of these types.
fn run(
    table: &Table,
    bodies: &ModuleBodies,
    alloc: Global,
    walk: &mut Walk,
    path: &Path,
    types: &[Type],
    routine: &Routine,
    values: Values,
    to: Option<u32>,
) -> Result<(), Stop>
    ensures { Follows (block_and_state bodies.now (meanings_of table.now) path.now types.now routine.now values to) walk.old result walk.new }
{
    if !are_values_of(types, values.items()) {
        return Err(Stop::Broken);
    }
    match block(table, bodies, alloc, walk, path, routine, values) {
        Ok(()) => walk.enter_state(alloc, path, to),
        Err(stop) => Err(stop),
    }
}

/// Runs a block from an image on.
fn run_on(
    table: &Table,
    bodies: &ModuleBodies,
    alloc: Global,
    image: Image,
    path: &Path,
    types: &[Type],
    routine: &Routine,
    values: Values,
    to: Option<u32>,
    budget: u32,
) -> Result<(Outcome, u32), AllocError>
    requires { InOrder image.parts }
    ensures { IfOk result (λ made. IsMadeBy bodies.now ((block_and_state bodies.now (meanings_of table.now) path.now types.now routine.now values to) (fresh (log_from (core_of bodies.now image)) budget)) made.0 made.1) }
{
    let mut walk = Walk::owning(alloc, bodies, image, budget)?;
    let ran = run(
        table, bodies, alloc, &mut walk, path, types, routine, values, to,
    );
    finish(bodies, alloc, walk, ran)
}

/// No statements.
fn no_statements(alloc: Global) -> Stmts
    ensures { result ≡ no_statements }
{
    Stmts {
        stmts: Items::new(alloc),
        span: Span { start: 0, end: 0 },
    }
}

/// Runs the block of the initialization of the specification.
fn begin(
    program: &Program,
    alloc: Global,
    routine: &Routine,
    to: Option<u32>,
    budget: u32,
) -> Result<(Outcome, u32), AllocError>
    ensures { IfOk result (λ made. IsMadeBy program.now ((block_and_state program.now (meant program.now) [] [] routine.now [] to) (fresh (log_from (bare program.now).core) budget)) made.0 made.1) }
{
    let bodies = program.bodies();
    let image = root_image(alloc, bodies)?;
    let path = Path::root(alloc);
    let values = Values::none(alloc);
    run_on(
        program.table(),
        bodies,
        alloc,
        image,
        &path,
        &[],
        routine,
        values,
        to,
        budget,
    )
}

/// The initialization of the specification, which does nothing where none is written.
fn start(alloc: Global, program: &Program, budget: u32) -> Result<(Outcome, u32), AllocError>
    ensures { IfOk result (λ made. IsMadeBy program.now (start_run program.now budget) made.0 made.1) }
{
    match initialization(program.bodies()) {
        Some(first) => begin(program, alloc, &first.block, first.to, budget),
        None => {
            let nothing = no_statements(alloc);
            let routine = Routine {
                parameters: Items::new(alloc),
                locals: Items::new(alloc),
                result: None,
                body: Statements::of(&nothing),
            };
            begin(program, alloc, &routine, None, budget)
        }
    }
}

/// The transition of a body, both by their numbers, for an instance of it.
fn fire(
    alloc: Global,
    program: &Program,
    path: &Path,
    body: u32,
    trans: u32,
    image: Image,
    head: Option<Interaction>,
    budget: u32,
) -> Result<(Outcome, u32), AllocError>
    requires { InOrder image.parts }
    ensures { IfOk result (λ made. IsOfTransition program.now (job_of path.now trans image head budget) (transition program.now body trans) made.0 made.1) }
{
    match program.transition(body, trans) {
        None => Ok(nothing(budget)),
        Some(transition) => match program.block(body, trans) {
            None => unreachable!(),
            Some(routine) => {
                let table = with_choices(program.table(), transition.chosen())?;
                run_on(
                    &table,
                    program.bodies(),
                    alloc,
                    image,
                    path,
                    transition.received(),
                    routine,
                    received_values(alloc, head),
                    transition.to(),
                    budget,
                )
            }
        },
    }
}

/// What the transition with a number comes to, or the initialization, which has the number 0.
pub(crate) fn compute(
    alloc: Global,
    program: &Program,
    path: &Path,
    trans: u32,
    image: Image,
    head: Option<Interaction>,
    budget: u32,
) -> Result<(Outcome, u32), AllocError>
    requires { 0 < trans → InOrder image.parts }
    ensures { IfOk result (λ made. IsComputedOf program.now (job_of path.now trans image head budget) trans made.0 made.1) }
{
    if trans == 0 {
        return start(alloc, program, budget);
    }
    match body_at(image.parts.as_slice(), path) {
        None => Ok(nothing(budget)),
        Some(body) => fire(alloc, program, path, body, trans, image, head, budget),
    }
}
