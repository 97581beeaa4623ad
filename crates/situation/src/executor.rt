//! The executor: a world from the start on, one step after another, until its run ends.

ghost use Rattle.std.specs.Prelude.{◌≡◌, ◌<◌, ◌≤◌, ◌+◌, ◌*◌, ◌^◌, [], false, Option, Some, ℕ, IfOk, IsSome};
ghost use Rattle.outside.specs.Counts.{Rose};
ghost use Rattle.estelle_model.specs.declared.event.End.TheVariants.{Clock as ByClock};
ghost use Rattle.estelle_model.specs.Delays.{has_delays};
ghost use Rattle.estelle_model.specs.Subject.{subject};
ghost use Rattle.run_history.specs.OpenTickets.{open_in};
ghost use Rattle.situation.specs.Known.{IsReachedBy, IsWithinLimits};
ghost use Rattle.situation.specs.Runs.{IsStopped};

use crate::limits::{Limits, Stepped};
use crate::world::World;
use accepted_program::AcceptedProgram;
use compiled_program::CompiledProgram;
use estelle_model::{End, Run};
use outside::{Chooser, Clock};
use run_history::into_run;
use spec_accept::Checked;
use std::alloc::{AllocError, Global};

/// The events of a run and its end, or want of memory; and the clock.
type Executed<C> = (Result<(Run, End), AllocError>, C);

/// The events of a world that has ended, its end, and its clock.
fn told<C: Clock, H: Chooser + Drop>(alloc: Global, world: World<C, H>) -> Executed<C>
    requires ended { IsSome world.end }
    ensures stopped { (clock : Option ℕ) (first : H) → IsReachedBy H.draw C.moment clock first world.entry
        → IfOk result.0 (λ r. IsStopped H.draw first clock world.entry.subject world.entry.limits.budget world.entry.limits.turns r.0.events r.1) }
    ensures cause { IfOk result.0 (λ r. r.1 ≡ ByClock → Rose world.entry.first (C.faults result.1)) }
    ensures clock { result.1 ≡ world.entry.clock }
{
    let (history, end, clock) = world.finish();
    match into_run(alloc, history) {
        Ok(run) => (Ok((run, end)), clock),
        Err(_) => (Err(AllocError), clock),
    }
}

/// Steps until the run ends.
fn finished<C: Clock, H: Chooser + Drop>(alloc: Global, world: World<C, H>) -> Executed<C>
    requires none { open_in world.history.entries ≡ [] }
    ensures stopped { (clock : Option ℕ) (first : H) → IsReachedBy H.draw C.moment clock first world.entry
        → IfOk result.0 (λ r. IsStopped H.draw first clock world.entry.subject world.entry.limits.budget world.entry.limits.turns r.0.events r.1) }
    ensures cause { IfOk result.0 (λ r. r.1 ≡ ByClock → Rose world.entry.first (C.faults result.1)) }
    ensures later { C.faults world.entry.clock ≤ C.faults result.1 }
    ensures unasked { has_delays world.entry.subject ≡ false → result.1 ≡ world.entry.clock }
{
    let mut world = world;
    loop {
        match world.step(alloc) {
            Ok(Stepped::Ended(_)) => return told(alloc, world),
            Ok(_) => {}
            Err(_) => return (Err(AllocError), world.give_up()),
        }
    }
}

/// Runs a compiled program to its end.
fn run<C: Clock, H: Chooser + Drop>(
    alloc: Global,
    program: &CompiledProgram,
    limits: Limits,
    clock: C,
    chooser: H,
) -> Executed<C>
    requires room { limits.budget * (limits.turns + 1) < 2 ^ 63 }
    ensures stopped { IfOk result.0 (λ r. IsStopped H.draw chooser (C.moment clock) program.now limits.budget limits.turns r.0.events r.1) }
    ensures cause { IfOk result.0 (λ r. r.1 ≡ ByClock → Rose (C.faults clock) (C.faults result.1)) }
    ensures later { C.faults clock ≤ C.faults result.1 }
    ensures unasked { has_delays program.now ≡ false → result.1 ≡ clock }
{
    match World::begin(alloc, program, limits, clock, chooser) {
        Ok(world) => finished(alloc, world),
        Err(clock) => (Err(AllocError), clock),
    }
}

/// Runs an accepted specification to its end, and gives the clock back. The clock is asked only where a transition has a delay. The
/// error is want of memory.
pub fn execute<C: Clock, H: Chooser + Drop>(
    alloc: Global,
    checked: &Checked,
    limits: Limits,
    clock: C,
    chooser: H,
) -> (Result<(Run, End), AllocError>, C)
    requires room { limits.budget * (limits.turns + 1) < 2 ^ 63 }
    ensures stopped { IfOk result.0 (λ r. IsStopped H.draw chooser (C.moment clock) (subject checked.now.spec checked.now.names) limits.budget limits.turns r.0.events r.1) }
    ensures cause { IfOk result.0 (λ r. r.1 ≡ ByClock → Rose (C.faults clock) (C.faults result.1)) }
    ensures later { C.faults clock ≤ C.faults result.1 }
    ensures unasked { has_delays (subject checked.now.spec checked.now.names) ≡ false → result.1 ≡ clock }
{
    let Ok(program) = AcceptedProgram::new(alloc, checked) else {
        return (Err(AllocError), clock);
    };
    let Ok(compiled) = CompiledProgram::new(alloc, checked, &program) else {
        return (Err(AllocError), clock);
    };
    run(alloc, &compiled, limits, clock, chooser)
}
