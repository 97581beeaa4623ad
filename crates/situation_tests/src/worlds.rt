//! Worlds of two cells: what their steps do, what they tell at their end, and the clock that they give back.

ghost use Rattle.std.specs.Prelude.{◌≡◌, [], IfSome};
ghost use Rattle.run_history.specs.OpenTickets.{open_in};

use crate::firings::is_trace;
use accepted_program::AcceptedProgram;
use compiled_program::CompiledProgram;
use estelle_model::End;
use outside::{FirstChooser, VirtualClock};
use run_history::{History, count_fires, project};
use situation::{Limits, Stepped, World};
use spec_accept::Checked;
use std::alloc::{AllocError, Global};
use std::process::Abort;
use test_texts::{WORKED, accepted};

/// The clock that each world is given. No transition has a delay, so nobody asks it.
pub(crate) const CLOCK: VirtualClock = VirtualClock { moment: 7 };

/// How many firings a world may have; what its steps do, the last one behind its end, and the end behind each; how often it fires, and
/// its trace.
type Row = (u32, &'static [(Stepped, Option<End>)], u64, &'static str);

const ROWS: [Row; 3] = [
    (
        0,
        &[
            (Stepped::Ended(End::Turns), Some(End::Turns)),
            (Stepped::Ended(End::Turns), Some(End::Turns)),
        ],
        0,
        "estelle trace 1\nstart\nend turns\n",
    ),
    (
        1,
        &[
            (Stepped::Selected, None),
            (Stepped::Fired, Some(End::Turns)),
            (Stepped::Ended(End::Turns), Some(End::Turns)),
            (Stepped::Ended(End::Turns), Some(End::Turns)),
        ],
        1,
        "estelle trace 1\nstart\nselect / now 0 takes /1:1 /2:1\nfire /1 1\nend turns\n",
    ),
    (
        10_000,
        &[
            (Stepped::Selected, None),
            (Stepped::Fired, None),
            (Stepped::Fired, None),
            (Stepped::Selected, None),
            (Stepped::Ended(End::Dead), Some(End::Dead)),
            (Stepped::Ended(End::Dead), Some(End::Dead)),
        ],
        2,
        "estelle trace 1\nstart\nselect / now 0 takes /1:1 /2:1\nfire /1 1\nfire /2 1\nselect / now 0 takes -\nend deadlock\n",
    ),
];

fn begun<'a>(
    alloc: Global,
    program: &'a CompiledProgram<'a>,
    turns: u32,
) -> Option<World<'a, VirtualClock, FirstChooser>>
    ensures { IfSome result (λ world. open_in world.history.entries ≡ []) }
{
    let limits = Limits { turns, budget: 100 };
    World::begin(alloc, program, limits, CLOCK, FirstChooser).ok()
}

/// Whether the next steps do this, each with this end behind it.
fn goes(
    alloc: Global,
    world: &mut World<'_, VirtualClock, FirstChooser>,
    steps: &[(Stepped, Option<End>)],
) -> bool
    requires { open_in world.old.history.entries ≡ [] }
    ensures { open_in world.new.history.entries ≡ [] }
{
    for (wanted, end) in steps {
        match world.step(alloc) {
            Ok(did) => {
                if did != *wanted || world.end() != *end {
                    return false;
                }
            }
            Err(_) => return false,
        }
    }
    true
}

fn is_told(alloc: Global, history: &History, end: End, trace: &str) -> bool {
    match project(alloc, history) {
        Ok(run) => is_trace(alloc, &run, end, trace),
        Err(_) => false,
    }
}

/// Whether a world has ended with so many firings and this trace, and its clock is as it was given.
pub(crate) fn is_finished(
    alloc: Global,
    world: World<'_, VirtualClock, FirstChooser>,
    fires: u64,
    trace: &str,
) -> bool {
    if world.end().is_none() {
        return false;
    }
    let (history, end, clock) = world.finish();
    clock == CLOCK && count_fires(&history) == fires && is_told(alloc, &history, end, trace)
}

fn is_run(alloc: Global, program: &CompiledProgram, row: &Row) -> bool {
    let (turns, steps, fires, trace) = row;
    match begun(alloc, program, *turns) {
        Some(mut world) => {
            world.end().is_none()
                && goes(alloc, &mut world, steps)
                && is_finished(alloc, world, *fires, trace)
        }
        None => false,
    }
}

fn is_given_up(alloc: Global, program: &CompiledProgram) -> bool {
    match begun(alloc, program, 10_000) {
        Some(mut world) => {
            goes(alloc, &mut world, &[(Stepped::Selected, None)]) && world.give_up() == CLOCK
        }
        None => false,
    }
}

fn all_run(rt: &impl Abort, alloc: Global, program: &CompiledProgram) {
    for row in &ROWS {
        assert!(rt; is_run(alloc, program, row), "{} turns", row.0);
    }
    assert!(rt; is_given_up(alloc, program));
}

fn all_run_by(rt: &impl Abort, alloc: Global, checked: &Checked) -> Result<(), AllocError> {
    let program = AcceptedProgram::new(alloc, checked)?;
    let compiled = CompiledProgram::new(alloc, checked, &program)?;
    all_run(rt, alloc, &compiled);
    Ok(())
}

fn all_run_of(rt: &impl Abort, alloc: Global, text: &str) -> bool {
    match accepted(alloc, text.as_bytes()) {
        Some(checked) => all_run_by(rt, alloc, &checked).is_ok(),
        None => false,
    }
}

// That a world comes to its end, step by step, and which steps these are.
#[test]
fn steps_of_worlds(rt: HostRuntime) {
    let worked = &WORKED[1];
    assert_eq!(rt; worked.name, "two_cells");
    assert!(rt; all_run_of(&rt, rt.alloc(), worked.text));
}
