//! A trace as far as it was judged, and the judgement of its next event.

ghost use Rattle.std.specs.Prelude.{◌≡◌, ◌↔◌, ◌⊎◌, ◌<◌, ◌+◌, ◌^◌, ◌++◌, IsTrue, is_some, Some, length, IfOk, OnOk, MatchOption};
ghost use Rattle.estelle_tree.specs.Timers.{pair};
ghost use Rattle.estelle_model.specs.declared.event.Event.TheVariants as told;
ghost use Rattle.estelle_model.specs.Runs.{MaySelect, FiringFaults, GuardFaults};
ghost use Rattle.situation_state.specs.At.{NothingNoted};
ghost use Rattle.situation_state.specs.Firings.{MayFire, IsFired, failure_of};
ghost use Rattle.situation_state.specs.Places.{IsPlaceOf};

use crate::equality::{same_drops, same_fault, same_kind, same_outs};
use crate::putting::put_event;
use body_walker::{ByTrees, fire_plain};
use estelle_model::{Done, Event, Out, Outcome, Pair};
use estelle_tree::{Path, Wanted};
use pascal_values::Fault;
use selection_check::may_select;
use situation_offers::Offering;
use situation_state::{State, fault_in};
use std::alloc::{AllocError, Global};

/// The first events of a trace, which apply.
#[derive(Drop)]
pub(crate) struct JudgedPart<'a> {
    /// The situation that they lead to.
    pub(crate) state: State<'a>,
    pub(crate) events: &'a [Event],
    /// How many of them apply.
    pub(crate) count: usize,
    /// The fault that ended the run.
    pub(crate) fault: Option<Fault>,
}

fn has_faulted(outcome: &Outcome) -> bool
    ensures { result ≡ is_some (failure_of outcome.now) }
{
    match outcome {
        Outcome::Ran { .. } => false,
        Outcome::Faulted(_) => true,
    }
}

impl JudgedPart<'_> {
    ghost use Rattle.trace_check.specs.Going.{IsSelectable, IsFaultOf};
    ghost use Rattle.trace_check.specs.JudgedParts.{IsOpen, IsJudgedPart, IsNext, HasJudged, IsComputedAt, now};

    // ---- selections

    /// What wants a timer, if a system may select so.
    fn selectable(
        &self,
        alloc: Global,
        system: &Path,
        moment: u64,
        takes: &[Pair],
    ) -> Result<Option<Vec<Wanted>>, AllocError>
        requires { IsOpen self.now }
        ensures { IfOk result (λ wanted. MatchOption wanted (MaySelect self.now.state.program.now self.now.state.budget (now self.now) system.now moment takes.now → ⊥)
            (λ ws. IsSelectable self.now.state.program.now self.now.state.budget (now self.now) system.now moment takes.now ws.items)) }
    {
        if moment < self.state.moment {
            return Ok(None);
        }
        if !self.state.is_idle(system) {
            return Ok(None);
        }
        if !self.state.is_system(system) {
            return Ok(None);
        }
        let guards = ByTrees::of(self.state.program);
        let offering = self.state.ask(alloc, &guards, system, moment)?;
        match offering {
            Offering::Faults { .. } => Ok(None),
            Offering::Counts { counts, wanted } => {
                if may_select(&counts, takes) {
                    Ok(Some(wanted))
                } else {
                    Ok(None)
                }
            }
        }
    }

    /// Whether a selection may come now; then it is made.
    fn select(
        &mut self,
        alloc: Global,
        system: &Path,
        moment: u64,
        takes: &[Pair],
    ) -> Result<bool, AllocError>
        requires open { IsOpen self.old }
        requires next { IsNext self.old (told.Select system.now moment takes.now) }
        ensures { IfOk result (HasJudged self.old self.new) }
    {
        let selected = self.selectable(alloc, system, moment, takes)?;
        match selected {
            None => Ok(false),
            Some(wanted) => {
                self.state.select(alloc, system, moment, takes, &wanted)?;
                self.count_one();
                Ok(true)
            }
        }
    }

    // ---- firings

    /// Computes a pending firing.
    fn compute(&self, alloc: Global, at: usize) -> Result<Done, AllocError>
        requires open { IsOpen self.now }
        requires below { self.now.count < length self.now.events.now }
        requires there { at < length self.now.state.untaken.items }
        ensures { IfOk result (IsComputedAt at self.now) }
    {
        let job = self.state.job(alloc, at, 0)?;
        let done = fire_plain(alloc, self.state.program, job)?;
        Ok(done)
    }

    /// Puts what a firing did into the situation.
    fn put(&mut self, done: Done)
        requires { MayFire (now self.old) self.old.state done }
        ensures put { IsFired (now self.old) self.old.state self.new.state done }
        ensures rest { self.new ≡ record self.old { state = self.new.state } }
    {
        put_event(&mut self.state, self.events, self.count, done);
    }

    /// One event more applies.
    fn count_one(&mut self)
        requires { self.old.count + 1 < 2 ^ 31 }
        ensures { self.new ≡ record self.old { count = self.old.count + 1 } }
    {
        self.count += 1;
    }

    /// Whether just these outputs and drops are noted.
    pub(crate) fn has_noted(&self, outs: &[Out], drops: &[u64]) -> bool
        ensures { IsTrue result ↔ ((self.now.state.notes.outs.items ≡ outs.now) × (self.now.state.notes.drops.items ≡ drops.now)) }
    {
        same_outs(&self.state.notes.outs, outs) && same_drops(&self.state.notes.drops, drops)
    }

    /// Whether a pending firing gives these outputs and drops; then it is made.
    fn fire(
        &mut self,
        alloc: Global,
        path: &Path,
        trans: u32,
        outs: &[Out],
        drops: &[u64],
    ) -> Result<bool, AllocError>
        requires open { IsOpen self.old }
        requires next { IsNext self.old (told.Fire path.now trans outs.now drops.now) }
        ensures { IfOk result (HasJudged self.old self.new) }
    {
        let Some(at) = self.state.place(path, trans) else {
            return Ok(false);
        };
        let done = self.compute(alloc, at)?;
        if has_faulted(&done.outcome) {
            return Ok(false);
        }
        self.state.reserve(alloc, &done)?;
        let _ = self.state.take(at);
        self.put(done);
        if !self.has_noted(outs, drops) {
            return Ok(false);
        }
        self.state.forget_told();
        self.count_one();
        Ok(true)
    }

    // ---- faults

    /// Whether the pending firing at a place comes to this fault.
    fn firing_faults(
        &self,
        alloc: Global,
        at: usize,
        path: &Path,
        trans: u32,
        kind: Fault,
    ) -> Result<bool, AllocError>
        requires open { IsOpen self.now }
        requires below { self.now.count < length self.now.events.now }
        requires place { IsPlaceOf (pair path.now trans) self.now.state.untaken.items at }
        ensures { IfOk result (λ faults. IsTrue faults ↔ (FiringFaults self.now.state.program.now self.now.state.budget (now self.now) path.now trans kind)) }
    {
        let done = self.compute(alloc, at)?;
        match fault_in(&done.outcome) {
            None => Ok(false),
            Some(own) => Ok(same_kind(own, kind)),
        }
    }

    /// Whether this is the first guard that faults of a system of which nothing is pending.
    fn is_fault_of(
        &self,
        alloc: Global,
        system: &Path,
        path: &Path,
        trans: u32,
        kind: Fault,
    ) -> Result<bool, AllocError>
        requires { IsOpen self.now }
        ensures { IfOk result (λ faults. IsTrue faults ↔ (IsFaultOf self.now.state.program.now self.now.state.budget (now self.now) system.now path.now trans kind)) }
    {
        if !self.state.is_idle(system) {
            return Ok(false);
        }
        if !self.state.is_system(system) {
            return Ok(false);
        }
        let guards = ByTrees::of(self.state.program);
        let offering = self.state.ask(alloc, &guards, system, self.state.moment)?;
        match offering {
            Offering::Counts { .. } => Ok(false),
            Offering::Faults {
                path: own,
                trans: number,
                kind: fault,
            } => Ok(same_fault(&own, number, fault, path, trans, kind)),
        }
    }

    /// Whether this is such a guard of some system: one at or above its instance.
    fn guard_faults(
        &self,
        alloc: Global,
        path: &Path,
        trans: u32,
        kind: Fault,
    ) -> Result<bool, AllocError>
        requires { IsOpen self.now }
        ensures { IfOk result (λ faults. IsTrue faults ↔ (GuardFaults self.now.state.program.now self.now.state.budget (now self.now) path.now trans kind)) }
    {
        let numbers = path.items();
        for len in 0..numbers.len() + 1 {
            let system = Path::of(Vec::from_slice(alloc, &numbers[..len])?);
            if self.is_fault_of(alloc, &system, path, trans, kind)? {
                return Ok(true);
            }
        }
        Ok(false)
    }

    /// Whether this fault may come now.
    fn faults(
        &self,
        alloc: Global,
        path: &Path,
        trans: u32,
        kind: Fault,
    ) -> Result<bool, AllocError>
        requires open { IsOpen self.now }
        requires below { self.now.count < length self.now.events.now }
        ensures { IfOk result (λ faults. IsTrue faults ↔ (FiringFaults self.now.state.program.now self.now.state.budget (now self.now) path.now trans kind ⊎ GuardFaults self.now.state.program.now self.now.state.budget (now self.now) path.now trans kind)) }
    {
        match self.state.place(path, trans) {
            Some(at) => self.firing_faults(alloc, at, path, trans, kind),
            None => self.guard_faults(alloc, path, trans, kind),
        }
    }

    /// A fault ends the run.
    fn end_by(&mut self, kind: Fault)
        requires { self.old.count + 1 < 2 ^ 31 }
        ensures { self.new ≡ record self.old { fault = Some kind; count = self.old.count + 1 } }
    {
        self.fault = Some(kind);
        self.count += 1;
    }

    /// Whether this fault may come now; then it ends the run.
    fn fail(
        &mut self,
        alloc: Global,
        path: &Path,
        trans: u32,
        kind: Fault,
    ) -> Result<bool, AllocError>
        requires open { IsOpen self.old }
        requires next { IsNext self.old (told.Fault path.now trans kind) }
        ensures { IfOk result (HasJudged self.old self.new) }
    {
        if !self.faults(alloc, path, trans, kind)? {
            return Ok(false);
        }
        self.end_by(kind);
        Ok(true)
    }

    // ---- the next event

    /// Whether an event, which is the next one, applies; then the situation is the one after it.
    fn judge_next(&mut self, alloc: Global, event: &Event) -> Result<bool, AllocError>
        requires open { IsOpen self.old }
        requires next { IsNext self.old event.now }
        ensures { IfOk result (HasJudged self.old self.new) }
    {
        match event {
            Event::Start { .. } => Ok(false),
            Event::Select { system, now, takes } => {
                self.select(alloc, system, *now, takes.as_slice())
            }
            Event::Fire {
                path,
                trans,
                outs,
                drops,
            } => self.fire(alloc, path, *trans, outs.as_slice(), drops.as_slice()),
            Event::Fault { path, trans, kind } => self.fail(alloc, path, *trans, *kind),
        }
    }

    /// The same, unless a fault ended the run: nothing follows it.
    pub(crate) fn step(&mut self, alloc: Global, event: &Event) -> Result<bool, AllocError>
        requires keeps { IsJudgedPart self.old }
        requires next { IsNext self.old event.now }
        ensures { IfOk result (HasJudged self.old self.new) }
    {
        if self.fault.is_some() {
            return Ok(false);
        }
        self.judge_next(alloc, event)
    }
}
