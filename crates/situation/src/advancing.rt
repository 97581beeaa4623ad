//! A run goes on without firing: by a selection, a wait for the clock, or its end.

ghost use Rattle.std.specs.Prelude.{◌≡◌, ◌≢◌, ◌≤◌, ◌<◌, ℕ, false, true, Option, Some, length, slice_get, map as each, IfOk, OnErr};
ghost use Rattle.outside.specs.Counts.{HasCause};
ghost use Rattle.estelle_model.specs.declared.event.End.TheVariants.{Clock as ByClock, Faulted};
ghost use Rattle.estelle_model.specs.Delays.{has_delays};
ghost use Rattle.situation.specs.declared.limits.Advanced.TheVariants as did;

use crate::execution::Execution;
use crate::limits::Advanced;
use crate::systems::{first_due, wake_all};
use compiled_program::CompiledProgram;
use estelle_model::{End, Pair};
use estelle_tree::{Items, Path, Wanted};
use outside::{Chooser, Clock, Failed};
use pascal_values::Fault;
use run_history::{Taken, count_fires};
use situation_offers::{Chosen, SelectFault};
use situation_steps::Time;
use std::alloc::{AllocError, Global};

impl<H: Chooser + Drop> Execution<'_, H> {
    ghost use Rattle.delay_timers.specs.Moments.{AreDifferent};
    ghost use Rattle.run_history.specs.Histories.{project, fires};
    ghost use Rattle.situation_steps.specs.declared.systems.System.{System as Kept};
    ghost use Rattle.situation_steps.specs.Systems.{after_selection, after_wait};
    ghost use Rattle.situation.specs.Worlds.{IsOpenExecution, IsExecution, IsUnchanged};
    ghost use Rattle.situation.specs.Steps.{GoesOn, IsDueAt, IsIdle, MayBeNow, HasSelected, HasAdvanced, IsFaultAt, MayWaitFor, IsCauseOf, LeavesClock};

    /// A system has selected so many firings, and awaits no selection.
    fn note_selected(&mut self, at: usize, now: u64, count: usize)
        requires { at < length self.old.systems.items }
        ensures systems { (x : Kept) → slice_get self.old.systems.items at ≡ Some x → self.new.systems.items ≡ after_selection at x count self.old.systems.items }
        ensures rest { self.new ≡ record self.old { systems = self.new.systems; time = record self.old.time { known = now } } }
    {
        let system = &mut self.systems[at];
        system.awaits = false;
        system.pending = count;
        self.time.known = now;
    }

    /// Puts and notes what a system has selected, and renews its timers.
    fn put_selected(
        &mut self,
        alloc: Global,
        at: usize,
        now: u64,
        takes: Vec<Pair>,
        wanted: &[Wanted],
    ) -> Result<Advanced, AllocError>
        requires open { GoesOn 2 self.old }
        requires due { IsDueAt at self.old }
        requires different { AreDifferent wanted.now }
        ensures stepped { IfOk result (HasSelected H.draw at now takes.items wanted.now self.old self.new) }
        ensures refused { OnErr result (IsUnchanged self.old self.new) }
        ensures selected { IfOk result (λ done. done ≡ did.Selected) }
    {
        let system = self.systems[at].path.copy(alloc)?;
        self.state.select(alloc, &system, now, &takes, wanted)?;
        self.note_selected(at, now, takes.len());
        self.note_selection(system, now, Items::from_vec(takes));
        Ok(Advanced::Selected)
    }

    /// The first guard that faults ends the run.
    fn fault(&mut self, at: usize, path: Path, trans: u32, kind: Fault) -> Advanced
        requires open { GoesOn 2 self.old }
        requires due { IsDueAt at self.old }
        requires first { IsFaultAt at self.old path trans kind }
        ensures says { result ≡ did.Ended (Faulted kind) }
        ensures stepped { (moment : Option ℕ) → HasAdvanced H.draw moment moment self.old self.new result }
    {
        self.fail(path, trans, kind);
        Advanced::Ended(End::Faulted(kind))
    }

    /// A system that is due selects at this moment, where no guard of it faults.
    fn select_at(
        &mut self,
        alloc: Global,
        code: &CompiledProgram,
        at: usize,
        now: u64,
    ) -> Result<Advanced, AllocError>
        requires code { code.now ≡ self.old.state.program.now }
        requires open { GoesOn 2 self.old }
        requires due { IsDueAt at self.old }
        ensures stepped { IfOk result (λ done. (moment : Option ℕ) → MayBeNow moment now self.old → HasAdvanced H.draw moment moment self.old self.new done) }
        ensures refused { OnErr result (IsUnchanged self.old self.new) }
        ensures unclocked { IfOk result (λ done. done ≢ did.Ended ByClock) }
    {
        let system = &self.systems[at].path;
        match self
            .state
            .choose(alloc, code, system, now, &mut self.chooser)
        {
            Ok(Chosen { takes, wanted }) => self.put_selected(alloc, at, now, takes, &wanted),
            Err(SelectFault::Guard { path, trans, fault }) => {
                Ok(self.fault(at, path, trans, fault))
            }
            Err(SelectFault::Memory) => Err(AllocError),
        }
    }

    /// The moment of a selection.
    fn moment<C: Clock>(&self, clock: &mut C) -> Result<u64, Failed>
        requires { IsOpenExecution self.now }
        ensures now { IfOk result (λ now. MayBeNow (C.moment clock.old) now self.now) }
        ensures told { C.moment clock.new ≡ C.moment clock.old }
        ensures cause { HasCause (C.faults clock.old) (C.faults clock.new) result }
        ensures asked { OnErr result (self.now.delays ≡ true) }
        ensures unasked { self.now.delays ≡ false → clock.new ≡ clock.old }
    {
        if self.delays {
            clock.now(self.time.known)
        } else {
            Ok(0)
        }
    }

    /// A system that is due selects, unless the clock fails.
    fn select<C: Clock>(
        &mut self,
        alloc: Global,
        code: &CompiledProgram,
        clock: &mut C,
        at: usize,
    ) -> Result<Advanced, AllocError>
        requires code { code.now ≡ self.old.state.program.now }
        requires open { GoesOn 2 self.old }
        requires due { IsDueAt at self.old }
        ensures stepped { IfOk result (HasAdvanced H.draw (C.moment clock.old) (C.moment clock.new) self.old self.new) }
        ensures refused { OnErr result (IsUnchanged self.old self.new) }
        ensures told { OnErr result (C.moment clock.new ≡ C.moment clock.old) }
        ensures later { C.faults clock.old ≤ C.faults clock.new }
        ensures cause { IfOk result (IsCauseOf self.old.end (C.faults clock.old) (C.faults clock.new)) }
        ensures unasked { self.old.delays ≡ false → clock.new ≡ clock.old }
    {
        match self.moment(clock) {
            Ok(now) => self.select_at(alloc, code, at, now),
            Err(_) => Ok(self.ended(End::Clock)),
        }
    }

    /// The clock was waited for, and it is this moment.
    fn put_wait(&mut self, now: u64)
        requires { IsOpenExecution self.old }
        ensures systems { self.new.systems.items ≡ each after_wait self.old.systems.items }
        ensures rest { self.new ≡ record self.old { systems = self.new.systems; time = record { known = now; waited = length (project self.old.history.entries); may_wait = false } } }
    {
        self.time = Time {
            known: now,
            waited: self.events(),
            may_wait: false,
        };
        wake_all(&mut self.systems);
    }

    /// The clock is waited for until the next moment that is due.
    fn wait<C: Clock>(&mut self, clock: &mut C, due: u64) -> Advanced
        requires open { GoesOn 2 self.old }
        requires may { MayWaitFor due self.old }
        ensures stepped { HasAdvanced H.draw (C.moment clock.old) (C.moment clock.new) self.old self.new result }
        ensures later { C.faults clock.old ≤ C.faults clock.new }
        ensures cause { IsCauseOf self.old.end (C.faults clock.old) (C.faults clock.new) result }
        ensures unasked { self.old.delays ≡ false → clock.new ≡ clock.old }
    {
        match clock.wait(due.max(self.time.known)) {
            Ok(now) => {
                self.put_wait(now);
                Advanced::Waited
            }
            Err(_) => self.ended(End::Clock),
        }
    }

    /// Where nothing is due or pending, the clock is waited for, or the run is dead.
    fn wait_or_end<C: Clock>(&mut self, clock: &mut C) -> Advanced
        requires open { GoesOn 2 self.old }
        requires idle { IsIdle self.old }
        ensures stepped { HasAdvanced H.draw (C.moment clock.old) (C.moment clock.new) self.old self.new result }
        ensures later { C.faults clock.old ≤ C.faults clock.new }
        ensures cause { IsCauseOf self.old.end (C.faults clock.old) (C.faults clock.new) result }
        ensures unasked { self.old.delays ≡ false → clock.new ≡ clock.old }
    {
        match self.state.timers.next_due() {
            None => self.ended(End::Dead),
            Some(due) => self.wait(clock, due),
        }
    }

    /// What a run that goes on, below the limit of firings, comes to without firing.
    fn go_on<C: Clock>(
        &mut self,
        alloc: Global,
        code: &CompiledProgram,
        clock: &mut C,
    ) -> Result<Advanced, AllocError>
        requires code { code.now ≡ self.old.state.program.now }
        requires open { GoesOn 2 self.old }
        requires below { fires self.old.history.entries < self.old.turns }
        ensures advanced { IfOk result (HasAdvanced H.draw (C.moment clock.old) (C.moment clock.new) self.old self.new) }
        ensures refused { OnErr result (IsUnchanged self.old self.new) }
        ensures left { IfOk result (λ done. LeavesClock done clock.old clock.new) }
        ensures told { OnErr result (C.moment clock.new ≡ C.moment clock.old) }
        ensures later { C.faults clock.old ≤ C.faults clock.new }
        ensures cause { IfOk result (IsCauseOf self.old.end (C.faults clock.old) (C.faults clock.new)) }
        ensures unasked { self.old.delays ≡ false → clock.new ≡ clock.old }
    {
        if let Some(at) = first_due(&self.systems) {
            return self.select(alloc, code, clock, at);
        }
        if !self.state.untaken.is_empty() {
            return Ok(Advanced::Ready);
        }
        if let Some(Taken { ticket, .. }) = self.flying.front() {
            return Ok(Advanced::Flying(*ticket));
        }
        Ok(self.wait_or_end(clock))
    }

    /// What a run comes to without firing.
    pub(crate) fn advance<C: Clock>(
        &mut self,
        alloc: Global,
        code: &CompiledProgram,
        clock: &mut C,
    ) -> Result<Advanced, AllocError>
        requires code { code.now ≡ self.old.state.program.now }
        requires keeps { IsExecution self.old }
        ensures advanced { IfOk result (HasAdvanced H.draw (C.moment clock.old) (C.moment clock.new) self.old self.new) }
        ensures refused { OnErr result (IsUnchanged self.old self.new) }
        ensures left { IfOk result (λ done. LeavesClock done clock.old clock.new) }
        ensures told { OnErr result (C.moment clock.new ≡ C.moment clock.old) }
        ensures later { C.faults clock.old ≤ C.faults clock.new }
        ensures cause { IfOk result (IsCauseOf self.old.end (C.faults clock.old) (C.faults clock.new)) }
        ensures unasked { has_delays self.old.state.program.now ≡ false → clock.new ≡ clock.old }
    {
        if let Some(end) = self.end {
            return Ok(Advanced::Ended(end));
        }
        self.history.reserve(2)?;
        if count_fires(&self.history) == u64::from(self.turns) {
            return Ok(self.ended(End::Turns));
        }
        self.go_on(alloc, code, clock)
    }
}
