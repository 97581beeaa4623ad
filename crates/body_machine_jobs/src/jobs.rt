//! Jobs and guards.

ghost use Rattle.std.specs.Prelude.{◌≡◌, ◌&&◌, Some, IfOk};
ghost use Rattle.std.specs.Option.{option_copied};
ghost use Rattle.estelle_model.specs.Computed.{values_of};
ghost use Rattle.estelle_model.specs.Firing as firing;
ghost use Rattle.estelle_model.specs.Jobs.{instance_of, Answers};
ghost use Rattle.estelle_model.specs.Asked as asked;
ghost use Rattle.body_state.specs.InOrder.{InOrder};
ghost use Rattle.body_jobs.specs.Jobs.{MayBeFired};
ghost use Rattle.body_machine_meaning.specs.Executed.{Executes, ExecutesGuard, Guards, GuardsWhere, GuardsOf};
ghost use Rattle.body_machine_meaning.specs.Faithful.{IsFaithful};

use crate::firing::compute;
use crate::guards::guard;
use body_code::Code;
use body_jobs::{answered, is_in_state, is_received, lent_values};
use body_numbers::Numbers;
use body_program::Program;
use body_state::{View, Walk};
use estelle_model::{Done, Guard, Interaction, Job, Part};
use estelle_model_answers::{guards_are_answered, jobs_are_answered};
use estelle_tree::{Path, SequenceMut};
use flat_transitions::Transition;
use pascal_values::Values;
use std::alloc::{AllocError, Global};

/// Computes a job by code, in place of its image: each that meets the condition of a job (`IsJob`), and besides each whose parts stand
/// in path order. A job of transition 0 needs no image. With a code that is not faithful it comes to what the machine does.
pub fn run_job(
    alloc: Global,
    program: &Program,
    numbers: &Numbers,
    code: &Code,
    job: Job,
) -> Result<Done, AllocError>
    requires { MayBeFired job }
    ensures ticket { IfOk result (λ done. done.ticket ≡ job.ticket) }
    ensures path { IfOk result (λ done. done.path ≡ job.path) }
    ensures trans { IfOk result (λ done. done.trans ≡ job.trans) }
    ensures executes { IfOk result (λ done. Executes program.now numbers.now code.now job job.trans done.outcome done.left) }
    ensures answers { IsFaithful program.now numbers.now code.now → IfOk result (λ done. Answers program.now job done) }
{
    jobs_are_answered();
    let Job {
        ticket,
        path,
        trans,
        image,
        head,
        budget,
    } = job;
    let (outcome, left) = compute(
        alloc, program, numbers, code, &path, trans, image, head, budget,
    )?;
    Ok(Done {
        ticket,
        path,
        trans,
        outcome,
        left,
    })
}

/// `provided` and the delay on what a view shows, with the values of the interaction that is received.
fn evaluated(
    alloc: Global,
    program: &Program,
    numbers: &Numbers,
    code: &Code,
    path: &Path,
    view: &View,
    body: u32,
    trans: u32,
    transition: &Transition,
    head: Option<&Interaction>,
    timed: bool,
    budget: u32,
) -> Result<Guard, AllocError>
    requires { InOrder view.now.parts }
    ensures { IfOk result (λ answer. Guards program.now numbers.now code.now path.now view.now (values_of (option_copied head.entry)) timed budget body trans transition.now answer) }
{
    let none = Values::none(alloc);
    let values = lent_values(head, &none);
    let bodies = program.bodies();
    let walk = Walk::new(alloc, bodies, view, budget);
    answered(guard(
        alloc, bodies, numbers, code, walk, body, trans, path, transition, values, timed,
    ))
}

/// The guard of a transition of an instance in a state.
fn of_transition(
    alloc: Global,
    program: &Program,
    numbers: &Numbers,
    code: &Code,
    path: &Path,
    view: &View,
    part: &Part,
    trans: u32,
    transition: &Transition,
    head: Option<&Interaction>,
    timed: bool,
    budget: u32,
) -> Result<Guard, AllocError>
    requires { InOrder view.now.parts }
    ensures { IfOk result (λ answer. GuardsWhere program.now numbers.now code.now (firing.is_in_state transition.now.from part.now.state && asked.is_received transition.now.when (option_copied head.entry)) path.now view.now (option_copied head.entry) timed budget part.now.body trans transition.now answer) }
{
    if !is_in_state(transition, part.state) {
        return Ok(Guard::Off);
    }
    if !is_received(transition, head) {
        return Ok(Guard::Off);
    }
    evaluated(
        alloc, program, numbers, code, path, view, part.body, trans, transition, head, timed,
        budget,
    )
}

/// The guard of the transition with a number of an instance.
fn of_part(
    alloc: Global,
    program: &Program,
    numbers: &Numbers,
    code: &Code,
    path: &Path,
    view: &View,
    part: &Part,
    trans: u32,
    head: Option<&Interaction>,
    timed: bool,
    budget: u32,
) -> Result<Guard, AllocError>
    requires { InOrder view.now.parts }
    ensures { IfOk result (λ answer. GuardsOf program.now numbers.now code.now path.now view.now (option_copied head.entry) timed budget trans (Some (instance_of part.now)) answer) }
{
    match program.transition(part.body, trans) {
        None => Ok(Guard::Off),
        Some(transition) => of_transition(
            alloc, program, numbers, code, path, view, part, trans, transition, head, timed, budget,
        ),
    }
}

/// The guard of an instance's transition with a number, by code. Nothing of the image is copied, unless a function that is called
/// assigns to a variable of an instance.
pub fn run_guard(
    alloc: Global,
    program: &Program,
    numbers: &Numbers,
    code: &Code,
    path: &Path,
    view: &View,
    trans: u32,
    head: Option<&Interaction>,
    timed: bool,
    budget: u32,
) -> Result<Guard, AllocError>
    requires { InOrder view.now.parts }
    ensures executes { IfOk result (λ answer. ExecutesGuard program.now numbers.now code.now path.now view.now trans (option_copied head.entry) timed budget answer) }
    ensures answers { IsFaithful program.now numbers.now code.now → IfOk result (λ answer. asked.IsGuard program.now path.now view.now trans (option_copied head.entry) timed budget answer) }
{
    guards_are_answered();
    match view.part(path) {
        None => Ok(Guard::Off),
        Some(part) => of_part(
            alloc, program, numbers, code, path, view, part, trans, head, timed, budget,
        ),
    }
}
