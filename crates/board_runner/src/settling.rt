//! What was computed is committed in a turn.

ghost use Rattle.board_runner.specs.Going.{MayCommit, HasSettled, HasExchanged};

use crate::going::go_on_as;
use crate::work::Work;
use estelle_model::Done;
use outside::{Chooser, Clock};
use situation::{Committed, World};
use std::alloc::{AllocError, Global};

/// Commits what was computed of a firing, if there is memory for it. Behind an end none is needed.
pub(crate) fn settle_as<C: Clock, H: Chooser + Drop>(
    world: &mut World<'_, C, H>,
    alloc: Global,
    number: u32,
    done: Done,
) -> Result<Committed, Done>
    requires { MayCommit number world.old done }
    ensures { HasSettled number world.old world.new done result }
{
    world.write_as(number);
    if let Some(end) = world.end() {
        return Ok(Committed::Late(end));
    }
    match world.reserve(alloc, &done) {
        Ok(()) => Ok(world.commit(alloc, done)),
        Err(_) => Err(done),
    }
}

/// Commits what was computed, and goes on.
pub(crate) fn exchange_as<C: Clock, H: Chooser + Drop>(
    world: &mut World<'_, C, H>,
    alloc: Global,
    number: u32,
    done: Done,
) -> Result<(Committed, Result<Work, AllocError>), Done>
    requires { MayCommit number world.old done }
    ensures { HasExchanged number world.old world.new done result }
{
    match settle_as(world, alloc, number, done) {
        Ok(committed) => Ok((committed, go_on_as(world, alloc, number))),
        Err(done) => Err(done),
    }
}
