//! How deep units may nest.

ghost use Rattle.body_state.specs.Follows.{Follows};
ghost use Rattle.body_machine.specs.Frames.{deeper_than};

use body_state::Walk;
use body_values::Stop;
use pascal_values::Fault;

/// How deep calls and inits may nest.
pub const MAX_DEPTH: u32 = 200;

/// Takes a unit, and then tests the depth.
pub fn deepen(walk: &mut Walk, frame: u32) -> Result<(), Stop>
    ensures { Follows (deeper_than frame) walk.old result walk.new }
{
    walk.spend()?;
    if frame < MAX_DEPTH {
        Ok(())
    } else {
        Err(Stop::Fault(Fault::CallDepth))
    }
}
