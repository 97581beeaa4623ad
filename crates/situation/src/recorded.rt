//! Worlds on a board: what of a world stays, and what is noted.

ghost use Rattle.std.specs.Prelude.{◌≡◌};

use crate::limits::Limits;
use crate::world::World;
use compiled_program::CompiledProgram;
use outside::Clock;
use run_history::Entry;
use turn_board::Recorded;

impl<'a, C: Clock, H> Recorded for World<'a, C, H> {
    /// The specification, the limits, and how often the clock had failed when the world was begun.
    type Base = (CompiledProgram<'a>, Limits, u64);

    type Entry = Entry;

    ghost base = { λ w. (w.subject, w.limits, w.first) };

    ghost entries = { λ w. w.history.entries };

    ghost writer = { λ e. e.by };

    fn count(&self) -> u64 {
        self.history().items().len() as u64
    }
}
