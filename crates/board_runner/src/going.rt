//! A world goes on in a turn, and gives a pass something to do.

ghost use Rattle.std.specs.Prelude.{◌≡◌};
ghost use Rattle.board_runner.specs.Going.{told, HasGiven};

use crate::work::Work;
use estelle_model::End;
use outside::{Chooser, Clock};
use situation::{Advanced, World};
use std::alloc::{AllocError, Global};

/// What an end that comes is to a pass. A guard's fault is a move, and behind it the next turn tells the end.
fn ended(end: End) -> Work
    ensures { result ≡ told end }
{
    match end {
        End::Faulted(_) => Work::Moved,
        end => Work::Ended(end),
    }
}

/// Moves the run on, or takes a firing where one is next. Behind a wait for the clock it goes on.
fn go_on<C: Clock, H: Chooser + Drop>(
    world: &mut World<'_, C, H>,
    alloc: Global,
) -> Result<Work, AllocError>
    ensures { HasGiven world.old.writer world.old world.new result }
{
    if let Some(end) = world.end() {
        return Ok(Work::Ended(end));
    }
    match world.advance(alloc)? {
        Advanced::Selected => Ok(Work::Moved),
        Advanced::Waited => go_on(world, alloc),
        Advanced::Ready => Ok(Work::Job(world.take_job(alloc)?)),
        Advanced::Flying(ticket) => Ok(Work::Idle(ticket)),
        Advanced::Ended(end) => Ok(ended(end)),
    }
}

/// Goes on as the writer with this number.
pub(crate) fn go_on_as<C: Clock, H: Chooser + Drop>(
    world: &mut World<'_, C, H>,
    alloc: Global,
    number: u32,
) -> Result<Work, AllocError>
    ensures { HasGiven number world.old world.new result }
{
    world.write_as(number);
    go_on(world, alloc)
}
