//! A run by workers.

ghost use Rattle.std.specs.Prelude.{◌≡◌, ◌≤◌, All, IfOk, IfErr, IsSome};
ghost use Rattle.situation.specs.Known.{IsOfRun};
ghost use Rattle.situation.specs.Steps.{IsCounted};
ghost use Rattle.board_runner.specs.Histories.{base_of};

use crate::crew::Crew;
use crate::gate::Gate;
use crate::news::News;
use board_threads::work_on;
use outside::{Chooser, Clock};
use situation::World;
use std::alloc::Global;
use std::sync::Wait;
use std::thread::Threads;

// The clock of a run that did not come to its end.
fn given_up<C: Clock, H: Chooser + Drop>(world: World<'_, C, H>) -> C
    ensures { world.entry.first ≤ C.faults result }
{
    let _end = world.end();
    world.give_up()
}

// The world, if its run has ended.
fn ended<'a, C: Clock, H: Chooser + Drop>(world: World<'a, C, H>) -> Result<World<'a, C, H>, C>
    ensures same { IfOk result (λ left. left ≡ world.entry) }
    ensures ended { IfOk result (λ left. IsSome left.end) }
    ensures keeps { IfOk result IsOfRun }
    ensures counted { IfOk result (λ left. IsCounted left.first left.end (C.faults left.clock)) }
    ensures refused { IfErr result (λ clock. world.entry.first ≤ C.faults clock) }
{
    match world.end() {
        Some(_) => Ok(world),
        None => Err(world.give_up()),
    }
}

/// A run to its end, by so many workers. Each firing is computed between `enter` and `leave` of the gate, side by side with others. The refusal
/// is want of memory, and gives the clock back.
pub fn run_workers<
    'a,
    C: Clock + Send,
    H: Chooser + Drop + Send,
    G: Gate + Sync,
    R: Threads + Wait + Sync,
>(rt: &R, alloc: Global, world: World<'a, C, H>, n: u32, gate: &G) -> Result<World<'a, C, H>, C>
    requires workers { (1 ≤ n) × (n ≤ 64) }
    requires new { All (λ e. e.by ≡ 0) world.history.entries }
    ensures base { IfOk result (λ left. base_of left ≡ base_of world.entry) }
    ensures ended { IfOk result (λ left. IsSome left.end) }
    ensures keeps { IfOk result IsOfRun }
    ensures counted { IfOk result (λ left. IsCounted left.first left.end (C.faults left.clock)) }
    ensures refused { IfErr result (λ clock. world.entry.first ≤ C.faults clock) }
{
    let crew = Crew {
        code: world.code(),
        gate,
        news: News::new(),
        alloc,
    };
    match work_on(rt, alloc, world, n, &crew) {
        Ok(world) => ended(world),
        Err(world) => Err(given_up(world)),
    }
}
