//! One step of a run.

ghost use Rattle.std.specs.Prelude.{◌≡◌, ◌≢◌, ◌≤◌, [], false, ℕ, Option, IfOk, OnErr};
ghost use Rattle.estelle_model.specs.declared.event.End.TheVariants.{Clock as ByClock};
ghost use Rattle.estelle_model.specs.Delays.{has_delays};
ghost use Rattle.situation.specs.declared.limits.Stepped.TheVariants as did;
ghost use Rattle.situation.specs.Steps.{IsInTime, IsStepOf};

use crate::execution::Execution;
use crate::limits::{Advanced, Committed, Stepped};
use crate::tickets::Choice;
use compiled_program::CompiledProgram;
use outside::{Chooser, Clock};
use std::alloc::{AllocError, Global};

/// A step that committed.
fn stepped(committed: Committed) -> Stepped
    requires { IsInTime committed }
    ensures { IsStepOf committed result }
{
    match committed {
        Committed::Fired => Stepped::Fired,
        Committed::Faulted => Stepped::Faulted,
        Committed::Late(_) => unreachable!(),
    }
}

impl<H: Chooser + Drop> Execution<'_, H> {
    ghost use Rattle.run_history.specs.OpenTickets.{open_in};
    ghost use Rattle.situation.specs.Worlds.{IsExecution, HasStepped, IsUnchanged};
    ghost use Rattle.situation.specs.Steps.{GoesOn, IsReady, IsCause};

    /// One pending firing, which the chooser picks, is computed, taken and committed.
    fn fire(&mut self, alloc: Global, code: &CompiledProgram) -> Result<Stepped, AllocError>
        requires code { code.now ≡ self.old.state.program.now }
        requires open { GoesOn 0 self.old }
        requires ready { IsReady self.old }
        requires none { open_in self.old.history.entries ≡ [] }
        ensures stepped { IfOk result (λ did. (moment : Option ℕ) → HasStepped H.draw moment moment self.old self.new did) }
        ensures settled { open_in self.new.history.entries ≡ [] }
        ensures refused { OnErr result (IsUnchanged self.old self.new) }
        ensures unclocked { IfOk result (λ done. done ≢ did.Ended ByClock) }
    {
        let Choice { at, path, job } = self.choose(alloc)?;
        let done = code.fire(alloc, job)?;
        self.reserve(alloc, &done)?;
        self.take(at, path);
        Ok(stepped(self.commit(alloc, done)))
    }

    /// One step.
    pub(crate) fn step<C: Clock>(
        &mut self,
        alloc: Global,
        code: &CompiledProgram,
        clock: &mut C,
    ) -> Result<Stepped, AllocError>
        requires code { code.now ≡ self.old.state.program.now }
        requires keeps { IsExecution self.old }
        requires none { open_in self.old.history.entries ≡ [] }
        ensures stepped { IfOk result (HasStepped H.draw (C.moment clock.old) (C.moment clock.new) self.old self.new) }
        ensures settled { open_in self.new.history.entries ≡ [] }
        ensures refused { OnErr result (IsUnchanged self.old self.new) }
        ensures told { OnErr result (C.moment clock.new ≡ C.moment clock.old) }
        ensures later { C.faults clock.old ≤ C.faults clock.new }
        ensures cause { IfOk result (IsCause self.old.end (C.faults clock.old) (C.faults clock.new)) }
        ensures unasked { has_delays self.old.state.program.now ≡ false → clock.new ≡ clock.old }
    {
        match self.advance(alloc, code, clock)? {
            Advanced::Selected => Ok(Stepped::Selected),
            Advanced::Waited => Ok(Stepped::Waited),
            Advanced::Ready => self.fire(alloc, code),
            // No firing is under way.
            Advanced::Flying(_) => unreachable!(),
            Advanced::Ended(end) => Ok(Stepped::Ended(end)),
        }
    }
}
