//! States, and the one before the initialization.

ghost use Rattle.std.specs.Prelude.{IfOk};
ghost use Rattle.situation_state.specs.At.{IsBare};

use body_program::Program;
use delay_timers::Timers;
use effect_log::{Notes, Shared};
use estelle_model::Pair;
use situation_images::bare_shared;
use std::alloc::{AllocError, Global};
use std::collections::VecDeque;

/// A situation in stores, with what is needed to go on in it.
#[derive(Drop)]
pub struct State<'p> {
    pub program: &'p Program<'p>,
    /// The units of each firing, and of each guard.
    pub budget: u32,
    pub shared: Shared,
    pub timers: Timers,
    /// The selected firings in the order of their selections, but for those that were taken.
    pub untaken: VecDeque<Pair>,
    /// The moment of the last selection.
    pub moment: u64,
    /// What the last firing told, until that is taken or forgotten.
    pub notes: Notes,
}

impl<'p> State<'p> {
    /// Before the initialization. An error is want of memory.
    pub fn bare(
        alloc: Global,
        program: &'p Program<'p>,
        budget: u32,
    ) -> Result<State<'p>, AllocError>
        ensures { IfOk result (IsBare program.now budget) }
    {
        Ok(State {
            program,
            budget,
            shared: bare_shared(alloc, program)?,
            timers: Timers::none(alloc),
            untaken: VecDeque::new(alloc),
            moment: 0,
            notes: Notes::none(alloc),
        })
    }
}
