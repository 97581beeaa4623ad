//! Runs of accepted specifications by workers.

ghost use Rattle.std.specs.Prelude.{◌≡◌, ◌≤◌, ◌<◌, ◌+◌, ◌*◌, ◌^◌, IfOk, IsSome};
ghost use Rattle.outside.specs.Counts.{Rose};
ghost use Rattle.estelle_model.specs.declared.event.End.TheVariants.{Clock as ByClock};
ghost use Rattle.estelle_model.specs.Ends.{Stops};
ghost use Rattle.estelle_model.specs.Runs.{IsRun};
ghost use Rattle.estelle_model.specs.Subject.{subject};
ghost use Rattle.estelle_cli.specs.Tasks.{AreLimits};

use crate::running::chooser_by;
use accepted_program::AcceptedProgram;
use board_workers::{Gate, run_workers};
use compiled_program::CompiledProgram;
use estelle_model::{End, Run};
use outside::{AnyChooser, Clock};
use run_history::into_run;
use situation::{Limits, World};
use spec_accept::Checked;
use std::alloc::{AllocError, Global};
use std::sync::Wait;
use std::thread::Threads;

/// The events of a run and its end, or want of memory; and the clock.
type Executed<C> = (Result<(Run, End), AllocError>, C);

/// The events of a world that has ended, its end, and its clock.
fn told<C: Clock>(alloc: Global, world: World<C, AnyChooser>) -> Executed<C>
    requires ended { IsSome world.end }
    ensures run { IfOk result.0 (λ r. IsRun world.entry.subject world.entry.limits.budget r.0.events) }
    ensures stops { IfOk result.0 (λ r. Stops world.entry.subject world.entry.limits.budget world.entry.limits.turns r.0.events r.1) }
    ensures cause { IfOk result.0 (λ r. r.1 ≡ ByClock → Rose world.entry.first (C.faults result.1)) }
    ensures clock { result.1 ≡ world.entry.clock }
{
    let (history, end, clock) = world.finish();
    match into_run(alloc, history) {
        Ok(run) => (Ok((run, end)), clock),
        Err(_) => (Err(AllocError), clock),
    }
}

/// Runs a compiled program to its end, by so many workers.
fn run_by<C: Clock + Send, R: Threads + Wait + Sync, G: Gate + Sync>(
    rt: &R,
    gate: &G,
    alloc: Global,
    program: &CompiledProgram,
    limits: Limits,
    seed: Option<u64>,
    workers: u32,
    clock: C,
) -> Executed<C>
    requires room { limits.budget * (limits.turns + 1) < 2 ^ 63 }
    requires workers { (1 ≤ workers) × (workers ≤ 64) }
    ensures run { IfOk result.0 (λ r. IsRun program.now limits.budget r.0.events) }
    ensures stops { IfOk result.0 (λ r. Stops program.now limits.budget limits.turns r.0.events r.1) }
    ensures cause { IfOk result.0 (λ r. r.1 ≡ ByClock → Rose (C.faults clock) (C.faults result.1)) }
    ensures later { C.faults clock ≤ C.faults result.1 }
{
    let world = match World::begin(alloc, program, limits, clock, chooser_by(seed)) {
        Ok(world) => world,
        Err(clock) => return (Err(AllocError), clock),
    };
    match run_workers(rt, alloc, world, workers, gate) {
        Ok(world) => told(alloc, world),
        Err(clock) => (Err(AllocError), clock),
    }
}

/// Runs an accepted specification to its end, by so many workers whose firings pass the gate, and gives the clock back. The error is want
/// of memory.
pub(crate) fn executed_by<C: Clock + Send, R: Threads + Wait + Sync, G: Gate + Sync>(
    rt: &R,
    gate: &G,
    alloc: Global,
    checked: &Checked,
    limits: Limits,
    seed: Option<u64>,
    workers: u32,
    clock: C,
) -> Executed<C>
    requires limits { AreLimits limits }
    requires workers { (1 ≤ workers) × (workers ≤ 64) }
    ensures run { IfOk result.0 (λ r. IsRun (subject checked.now.spec checked.now.names) limits.budget r.0.events) }
    ensures stops { IfOk result.0 (λ r. Stops (subject checked.now.spec checked.now.names) limits.budget limits.turns r.0.events r.1) }
    ensures cause { IfOk result.0 (λ r. r.1 ≡ ByClock → Rose (C.faults clock) (C.faults result.1)) }
    ensures later { C.faults clock ≤ C.faults result.1 }
{
    let Ok(program) = AcceptedProgram::new(alloc, checked) else {
        return (Err(AllocError), clock);
    };
    let Ok(compiled) = CompiledProgram::new(alloc, checked, &program) else {
        return (Err(AllocError), clock);
    };
    run_by(rt, gate, alloc, &compiled, limits, seed, workers, clock)
}
