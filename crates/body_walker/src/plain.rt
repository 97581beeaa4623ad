//! Jobs and guards.

ghost use Rattle.std.specs.Prelude.{◌≡◌, ◌&&◌, if◌then◌else◌, Some, IfOk};
ghost use Rattle.std.specs.Option.{option_copied};
ghost use Rattle.estelle_model.specs.declared.job.Guard.TheVariants.{Off};
ghost use Rattle.estelle_model.specs.Firing as firing;
ghost use Rattle.estelle_model.specs.Jobs.{instance_of, Answers};
ghost use Rattle.estelle_model.specs.Computed.{IsComputedOf};
ghost use Rattle.estelle_model.specs.Asked as asked;
ghost use Rattle.estelle_model.specs.Subject.{meant_with};
ghost use Rattle.meaning_table.specs.Known.{meanings_of};
ghost use Rattle.body_state.specs.InOrder.{InOrder};
ghost use Rattle.body_jobs.specs.Jobs.{MayBeFired};
ghost use Rattle.body_walker.specs.Runs.{logged_guard};

use crate::firing::compute;
use crate::guards::guard;
use body_jobs::{answered, is_in_state, is_received, lent_values};
use body_program::{Program, with_choices};
use body_state::{ModuleBodies, View, Walk};
use estelle_model::{Done, Guard, Interaction, Job, Part};
use estelle_model_answers::{guards_are_answered, jobs_are_answered};
use estelle_tree::{Path, SequenceMut};
use flat_transitions::Transition;
use meaning_table::Table;
use pascal_values::Values;
use std::alloc::{AllocError, Global};

/// Computes a job, in place of its image: each that meets the condition of a job (`IsJob`), and besides each whose parts stand in
/// path order. A job of transition 0 needs no image.
pub fn fire_plain(alloc: Global, program: &Program, job: Job) -> Result<Done, AllocError>
    requires { MayBeFired job }
    ensures ticket { IfOk result (λ done. done.ticket ≡ job.ticket) }
    ensures path { IfOk result (λ done. done.path ≡ job.path) }
    ensures trans { IfOk result (λ done. done.trans ≡ job.trans) }
    ensures computed { IfOk result (λ done. IsComputedOf program.now job job.trans done.outcome done.left) }
    ensures answers { IfOk result (λ done. Answers program.now job done) }
{
    jobs_are_answered();
    let Job {
        ticket,
        path,
        trans,
        image,
        head,
        budget,
    } = job;
    let (outcome, left) = compute(alloc, program, &path, trans, image, head, budget)?;
    Ok(Done {
        ticket,
        path,
        trans,
        outcome,
        left,
    })
}

/// `provided` and the delay on what a view shows. The table tells what names mean where those of `any` have values.
fn guard_on(
    table: &Table,
    bodies: &ModuleBodies,
    alloc: Global,
    path: &Path,
    view: &View,
    transition: &Transition,
    values: &Values,
    timed: bool,
    budget: u32,
) -> Result<Guard, AllocError>
    requires { InOrder view.now.parts }
    ensures { meant_with bodies.now transition.now.chosen ≡ meanings_of table.now → IfOk result (λ answer. answer ≡ logged_guard bodies.now path.now view.now values.now timed budget transition.now) }
{
    let mut walk = Walk::new(alloc, bodies, view, budget);
    answered(guard(
        table, bodies, alloc, &mut walk, path, transition, values, timed,
    ))
}

/// The same, by the values that the transition has for the names of `any`.
fn guard_of_choices(
    alloc: Global,
    program: &Program,
    path: &Path,
    view: &View,
    transition: &Transition,
    values: &Values,
    timed: bool,
    budget: u32,
) -> Result<Guard, AllocError>
    requires { InOrder view.now.parts }
    ensures { IfOk result (λ answer. answer ≡ logged_guard program.now path.now view.now values.now timed budget transition.now) }
{
    let table = with_choices(program.table(), transition.chosen())?;
    guard_on(
        &table,
        program.bodies(),
        alloc,
        path,
        view,
        transition,
        values,
        timed,
        budget,
    )
}

/// `provided` and the delay, with the values of the interaction that is received.
fn evaluated(
    alloc: Global,
    program: &Program,
    path: &Path,
    view: &View,
    transition: &Transition,
    head: Option<&Interaction>,
    timed: bool,
    budget: u32,
) -> Result<Guard, AllocError>
    requires { InOrder view.now.parts }
    ensures { IfOk result (λ answer. answer ≡ asked.guard_run program.now path.now view.now (option_copied head.entry) timed budget transition.now) }
{
    let none = Values::none(alloc);
    let values = lent_values(head, &none);
    guard_of_choices(
        alloc, program, path, view, transition, values, timed, budget,
    )
}

/// The guard of a transition of an instance in a state.
fn of_transition(
    alloc: Global,
    program: &Program,
    path: &Path,
    view: &View,
    transition: &Transition,
    state: Option<u32>,
    head: Option<&Interaction>,
    timed: bool,
    budget: u32,
) -> Result<Guard, AllocError>
    requires { InOrder view.now.parts }
    ensures { IfOk result (λ answer. answer ≡ (if firing.is_in_state transition.now.from state && asked.is_received transition.now.when (option_copied head.entry) then asked.guard_run program.now path.now view.now (option_copied head.entry) timed budget transition.now else Off)) }
{
    if !is_in_state(transition, state) {
        return Ok(Guard::Off);
    }
    if !is_received(transition, head) {
        return Ok(Guard::Off);
    }
    evaluated(alloc, program, path, view, transition, head, timed, budget)
}

/// The guard of the transition with a number of an instance.
fn of_part(
    alloc: Global,
    program: &Program,
    path: &Path,
    view: &View,
    part: &Part,
    trans: u32,
    head: Option<&Interaction>,
    timed: bool,
    budget: u32,
) -> Result<Guard, AllocError>
    requires { InOrder view.now.parts }
    ensures { IfOk result (λ answer. answer ≡ asked.guard_for program.now path.now view.now trans (option_copied head.entry) timed budget (Some (instance_of part.now))) }
{
    match program.transition(part.body, trans) {
        None => Ok(Guard::Off),
        Some(transition) => of_transition(
            alloc, program, path, view, transition, part.state, head, timed, budget,
        ),
    }
}

/// The guard of an instance's transition with a number. Nothing of the image is copied, unless a function that is called
/// assigns to a variable of an instance. It takes memory for what it evaluates, and halves the parts for each instance that it reads.
pub fn guard_plain(
    alloc: Global,
    program: &Program,
    path: &Path,
    view: &View,
    trans: u32,
    head: Option<&Interaction>,
    timed: bool,
    budget: u32,
) -> Result<Guard, AllocError>
    requires { InOrder view.now.parts }
    ensures computed { IfOk result (λ answer. answer ≡ asked.guard_of_image program.now path.now view.now trans (option_copied head.entry) timed budget) }
    ensures answers { IfOk result (λ answer. asked.IsGuard program.now path.now view.now trans (option_copied head.entry) timed budget answer) }
{
    guards_are_answered();
    match view.part(path) {
        None => Ok(Guard::Off),
        Some(part) => of_part(alloc, program, path, view, part, trans, head, timed, budget),
    }
}
