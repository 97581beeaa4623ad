//! Worlds.

ghost use Rattle.std.specs.Prelude.{◌≡◌, ◌≤◌, ◌*◌, ◌+◌, ◌<◌, ◌^◌, [], false, ℕ, Option, Some, IfOk, IfErr, IfSome, OnOk, OnErr, IsSome};
ghost use Rattle.estelle_model.specs.Delays.{has_delays};
ghost use Rattle.estelle_model.specs.Ends.{Stops};
ghost use Rattle.estelle_model.specs.Runs.{IsRun};
ghost use Rattle.estelle_model_fates.specs.Fates.{HaveOneFate};
ghost use Rattle.estelle_model_fates.specs.Order.{AreFirstInFirstOut};
ghost use Rattle.run_history.specs.Histories.{project};
ghost use Rattle.run_history.specs.OpenTickets.{open_in};

use crate::begin;
use crate::execution::Execution;
use crate::limits::{Advanced, Committed, Limits, Stepped};
use crate::tickets::Choice;
use compiled_program::CompiledProgram;
use estelle_model::{Done, End, Job};
use estelle_model_fates::{first_in_is_first_out, outputs_have_one_fate};
use outside::{Chooser, Clock};
use run_history::History;
use std::alloc::{AllocError, Global};
use std::marker::Model;

/// A run of a specification with its chooser and its clock.
#[derive(Drop)]
pub struct World<'a, C: Clock, H> {
    program: &'a CompiledProgram<'a>,
    execution: Execution<'a, H>,
    clock: C,
    /// How often the clock had failed when the world was begun.
    first: u64,
}

impl<'a, C: Clock, H> Model for World<'a, C, H> {
    ghost use Rattle.std.specs.Prelude.{◌≡◌};
    ghost use Rattle.situation.specs.Steps.{IsCounted};
    ghost use Rattle.std.specs.Coded.{codes};
    ghost use Rattle.pascal_values.specs.contracts.value.Value as of_values;
    ghost use Rattle.estelle_tree.specs.contracts.tree.specification.Spec as of_specs;
    ghost use Rattle.effect_log.specs.contracts.shared.Shared as of_shared;
    ghost use Rattle.effect_log.specs.contracts.notes.Notes as of_notes;
    ghost use Rattle.situation.specs.Known.{Known};

    ghost Value = { Known C H };

    ghost coded = { Prim.hlevel (codes, of_specs.the_row.coded, of_values.the_row.coded, of_shared.the_row.coded, of_notes.the_row.coded, C.code, H.code) };

    ghost use Rattle.situation.specs.Worlds.{IsExecution, limits_of};

    ghost view = { λ w. record { subject = w.execution.state.program.now; limits = limits_of w.execution; history = w.execution.history; end = w.execution.end; time = w.execution.time; systems = w.execution.systems.items; chooser = w.execution.chooser; clock = w.clock; first = w.first; writer = w.execution.writer; room = record { shared = w.execution.state.shared; notes = w.execution.state.notes } } };

    ghost invariant = { λ w. IsExecution w.execution × (w.program.now ≡ w.execution.state.program.now) × IsCounted w.first w.execution.end (C.faults w.clock) };
}

impl<C: Clock, H> World<'_, C, H> {
    /// What was noted so far.
    pub fn history(&self) -> &History
        ensures { result.now ≡ self.now.history }
    {
        &self.execution.history
    }
}

impl<'a, C: Clock, H: Chooser + Drop> World<'a, C, H> {
    ghost use Rattle.situation.specs.Known.{IsOfRun, IsWithinLimits, IsReachedBy, IsAtStart, IsPlannedStep, IsAsBefore, IsPlannedAdvance, IsReady, HasTaken, IsStill, IsOpenBy, IsAnswerIn, HasRoomFor, HasCommitted};
    ghost use Rattle.situation.specs.Runs.{IsStopped};
    ghost use Rattle.situation.specs.Steps.{IsCause, IsCauseOf, IsCounted};

    /// Runs the start. The refusal is want of memory.
    pub fn begin(
        alloc: Global,
        program: &'a CompiledProgram<'a>,
        limits: Limits,
        clock: C,
        chooser: H,
    ) -> Result<World<'a, C, H>, C>
        requires room { limits.budget * (limits.turns + 1) < 2 ^ 63 }
        ensures keeps { IfOk result IsOfRun }
        ensures of { IfOk result (IsWithinLimits program.now limits) }
        ensures begun { IfOk result (IsReachedBy H.draw C.moment (C.moment clock) chooser) }
        ensures starts { IfOk result IsAtStart }
        ensures none { IfOk result (λ world. open_in world.history.entries ≡ []) }
        ensures writer { IfOk result (λ world. world.writer ≡ 0) }
        ensures first { IfOk result (λ world. world.first ≡ C.faults clock) }
        ensures unasked { IfOk result (λ world. world.clock ≡ clock) }
        ensures clock { IfErr result (λ refused. refused ≡ clock) }
    {
        let first = clock.faults();
        match begin::begin(alloc, program.program(), program, limits, chooser) {
            Ok(execution) => Ok(World {
                program,
                execution,
                clock,
                first,
            }),
            Err(_) => Err(clock),
        }
    }

    /// The code of the specification, with which the run was begun.
    pub fn code(&self) -> &'a CompiledProgram<'a>
        ensures { result.now ≡ self.now.subject }
    {
        self.program
    }

    /// What is noted from now on has this writer.
    pub fn write_as(&mut self, number: u32)
        ensures { self.new ≡ record self.old { writer = number } }
    {
        self.execution.writer = number;
    }

    /// A selection, a wait for the clock, or the end, where one of them is next. Else a firing is next: one that nobody has taken, or
    /// only firings that were taken. After a refusal, which is want of memory, what is kept is as before, but the chooser may have been
    /// drawn from and the clock been asked.
    pub fn advance(&mut self, alloc: Global) -> Result<Advanced, AllocError>
        ensures keeps { IsOfRun self.new }
        ensures advanced { IfOk result (IsPlannedAdvance H.draw C.moment self.old self.new) }
        ensures refused { OnErr result (IsAsBefore self.old self.new) }
        ensures told { OnErr result (C.moment self.new.clock ≡ C.moment self.old.clock) }
        ensures later { C.faults self.old.clock ≤ C.faults self.new.clock }
        ensures cause { IfOk result (IsCauseOf self.old.end (C.faults self.old.clock) (C.faults self.new.clock)) }
        ensures unasked { has_delays self.old.subject ≡ false → self.new.clock ≡ self.old.clock }
    {
        self.execution.advance(alloc, self.program, &mut self.clock)
    }

    /// Takes one of the firings that are pending and that nobody has taken, as the chooser picks, under the next ticket, and gives its
    /// job. After a refusal, which is want of memory, nothing is taken.
    pub fn take_job(&mut self, alloc: Global) -> Result<Job, AllocError>
        requires { IsReady self.old }
        ensures keeps { IsOfRun self.new }
        ensures taken { IfOk result (HasTaken H.draw self.old self.new) }
        ensures refused { OnErr result (IsAsBefore self.old self.new) }
        ensures clock { self.new.clock ≡ self.old.clock }
    {
        let Choice { at, path, job } = self.execution.choose(alloc)?;
        self.execution.take(at, path);
        Ok(job)
    }

    /// Makes the room for what was computed of a firing. The refusal is want of memory.
    pub fn reserve(&mut self, alloc: Global, done: &Done) -> Result<(), AllocError>
        ensures room { OnOk result (HasRoomFor self.new done.now) }
        ensures same { IsStill self.old self.new }
    {
        self.execution.reserve(alloc, done)
    }

    /// Puts what was computed of a firing that was taken and not committed into the situation as it is now, and notes it. Behind an end
    /// nothing changes. It takes no memory.
    pub fn commit(&mut self, alloc: Global, done: Done) -> Committed
        requires open { IsOpenBy self.old done }
        requires answers { IsAnswerIn self.old done }
        requires room { HasRoomFor self.old done }
        ensures keeps { IsOfRun self.new }
        ensures committed { HasCommitted self.old self.new done result }
    {
        self.execution.commit(alloc, done)
    }

    /// One step: an advance, or where a firing is next, one that is taken, computed and committed. After a refusal, which is want of memory, what is kept is
    /// as before, but the chooser may have been drawn from and the clock been asked.
    pub fn step(&mut self, alloc: Global) -> Result<Stepped, AllocError>
        requires { open_in self.old.history.entries ≡ [] }
        ensures settled { open_in self.new.history.entries ≡ [] }
        ensures keeps { IsOfRun self.new }
        ensures stepped { IfOk result (IsPlannedStep H.draw C.moment self.old self.new) }
        ensures refused { OnErr result (IsAsBefore self.old self.new) }
        ensures told { OnErr result (C.moment self.new.clock ≡ C.moment self.old.clock) }
        ensures later { C.faults self.old.clock ≤ C.faults self.new.clock }
        ensures cause { IfOk result (IsCause self.old.end (C.faults self.old.clock) (C.faults self.new.clock)) }
        ensures unasked { has_delays self.old.subject ≡ false → self.new.clock ≡ self.old.clock }
    {
        self.execution.step(alloc, self.program, &mut self.clock)
    }

    /// The end, once there is one.
    pub fn end(&self) -> Option<End>
        ensures end { result ≡ self.now.end }
        ensures keeps { IsOfRun self.now }
        ensures counted { IsCounted self.now.first self.now.end (C.faults self.now.clock) }
    {
        self.execution.end
    }

    /// The history of a run that has ended, its end, and the clock.
    pub fn finish(self) -> (History, End, C)
        requires { IsSome self.end }
        ensures run { IsRun self.entry.subject self.entry.limits.budget (project result.0.entries) }
        ensures stops { Stops self.entry.subject self.entry.limits.budget self.entry.limits.turns (project result.0.entries) result.1 }
        ensures fates { HaveOneFate self.entry.subject self.entry.limits.budget (project result.0.entries) }
        ensures order { AreFirstInFirstOut self.entry.subject self.entry.limits.budget (project result.0.entries) }
        ensures stopped { (clock : Option ℕ) (first : H) → IsReachedBy H.draw C.moment clock first self.entry
            → IsStopped H.draw first clock self.entry.subject self.entry.limits.budget self.entry.limits.turns (project result.0.entries) result.1 }
        ensures counted { IsCounted self.entry.first (Some result.1) (C.faults result.2) }
        ensures history { result.0 ≡ self.entry.history }
        ensures end { IfSome self.entry.end (λ end. result.1 ≡ end) }
        ensures clock { result.2 ≡ self.entry.clock }
    {
        outputs_have_one_fate();
        first_in_is_first_out();
        let World {
            program: _,
            execution,
            clock,
            first: _,
        } = self;
        let Execution { history, end, .. } = execution;
        match end {
            Some(end) => (history, end, clock),
            None => unreachable!(),
        }
    }

    /// The clock, without the run.
    pub fn give_up(self) -> C
        ensures { result ≡ self.entry.clock }
    {
        let World {
            program: _,
            execution: _,
            clock,
            first: _,
        } = self;
        clock
    }
}
