//! The first event of a trace.

ghost use Rattle.std.specs.Prelude.{◌≡◌, ◌<◌, ◌*◌, ◌^◌, length, take, Some, slice_get, IfOk, MatchOption};
ghost use Rattle.estelle_model.specs.declared.event.Event.TheVariants as told;
ghost use Rattle.estelle_model.specs.Runs.{IsRun};
ghost use Rattle.estelle_model_legality.specs.Instances.{LeadsToStates};
ghost use Rattle.effect_log.specs.Putting.{IsRan};
ghost use Rattle.trace_check.specs.JudgedParts.{IsFresh, IsOf, HasBegun};

use crate::judged_part::JudgedPart;
use body_program::Program;
use body_walker::fire_plain;
use estelle_model::{Done, Event, Out};
use estelle_tree::Path;
use pascal_values::Fault;
use situation_state::{State, fault_in};
use std::alloc::{AllocError, Global};

/// Before the start.
fn fresh<'a>(
    alloc: Global,
    program: &'a Program<'a>,
    budget: u32,
    events: &'a [Event],
) -> Result<JudgedPart<'a>, AllocError>
    ensures fresh { IfOk result IsFresh }
    ensures of { IfOk result (IsOf program.now budget events.now) }
{
    Ok(JudgedPart {
        state: State::bare(alloc, program, budget)?,
        events,
        count: 0,
        fault: None,
    })
}

impl JudgedPart<'_> {
    ghost use Rattle.estelle_model.specs.Firing.{bare};
    ghost use Rattle.situation_state.specs.Firings.{MayFire, IsFired};
    ghost use Rattle.trace_check.specs.JudgedParts.{IsNext, HasJudged, MayBegin, FailsFirst};

    /// Puts what the initialization did.
    fn put_first(&mut self, done: Done)
        requires { MayFire (bare self.old.state.program.now) self.old.state done }
        ensures put { IsFired (bare self.old.state.program.now) self.old.state self.new.state done }
        ensures rest { self.new ≡ record self.old { state = self.new.state } }
    {
        self.state.fire_start(done);
    }

    /// Whether the initialization gives these outputs and drops; then it is made.
    fn start(&mut self, done: Done, outs: &[Out], drops: &[u64]) -> bool
        requires may { MayBegin self.old done }
        requires ran { IsRan done.outcome }
        requires next { IsNext self.old (told.Start outs.now drops.now) }
        ensures { HasJudged self.old self.new result }
    {
        self.put_first(done);
        if !self.has_noted(outs, drops) {
            return false;
        }
        self.state.forget_told();
        self.count = 1;
        true
    }

    /// Whether a fault is that of the initialization; then it ends the run.
    fn fail_first(&mut self, own: Fault, path: &Path, trans: u32, kind: Fault) -> bool
        requires fresh { IsFresh self.old }
        requires fails { FailsFirst self.old own }
        requires next { IsNext self.old (told.Fault path.now trans kind) }
        ensures { HasJudged self.old self.new result }
    {
        if path.items().is_empty() && trans == 0 && kind == own {
            self.fault = Some(own);
            self.count = 1;
            return true;
        }
        false
    }

    /// Whether the first event is what the initialization comes to; then the situation is the one after it.
    fn judge_first(&mut self, done: Done, first: &Event) -> bool
        requires may { MayBegin self.old done }
        requires next { IsNext self.old first.now }
        ensures { HasJudged self.old self.new result }
    {
        match fault_in(&done.outcome) {
            None => match first {
                Event::Start { outs, drops } => self.start(done, outs.as_slice(), drops.as_slice()),
                Event::Select { .. } => false,
                Event::Fire { .. } => false,
                Event::Fault { .. } => false,
            },
            Some(own) => match first {
                Event::Start { .. } => false,
                Event::Select { .. } => false,
                Event::Fire { .. } => false,
                Event::Fault { path, trans, kind } => self.fail_first(own, path, *trans, *kind),
            },
        }
    }
}

/// The trace after its first event, if that is the start of a run, or its fault.
pub(crate) fn begin<'a>(
    alloc: Global,
    program: &'a Program<'a>,
    budget: u32,
    events: &'a [Event],
    first: &Event,
) -> Result<Option<JudgedPart<'a>>, AllocError>
    requires leads { LeadsToStates program.now }
    requires few { length events.now < 2 ^ 31 }
    requires room { budget * length events.now < 2 ^ 63 }
    requires first { slice_get events.now 0 ≡ Some first.now }
    ensures { IfOk result (λ begun. MatchOption begun (IsRun program.now budget (take 1 events.now) → ⊥) (HasBegun program.now budget events.now)) }
{
    let mut judged_part = fresh(alloc, program, budget, events)?;
    let job = judged_part.state.start_job(alloc)?;
    let done = fire_plain(alloc, program, job)?;
    judged_part.state.reserve(alloc, &done)?;
    if judged_part.judge_first(done, first) {
        Ok(Some(judged_part))
    } else {
        Ok(None)
    }
}
