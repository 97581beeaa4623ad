//! The start of a run.

ghost use Rattle.std.specs.Prelude.{◌≡◌, ◌<◌, ◌+◌, ◌*◌, ◌^◌, ◌≤◌, ◌∷◌, ◌++◌, [], IfOk, OnOk};
ghost use Rattle.estelle_model.specs.declared.event.Event.TheVariants as events;
ghost use Rattle.estelle_model_legality.specs.Instances.{LeadsToStates};
ghost use Rattle.situation.specs.Runs.{noted};
ghost use Rattle.situation.specs.Steps.{IsFresh, IsBegun};

use crate::delays::has_delays;
use crate::execution::Execution;
use crate::limits::Limits;
use crate::systems::all_systems;
use body_program::Program;
use compiled_program::CompiledProgram;
use estelle_model::{Done, Event};
use estelle_tree::Path;
use outside::Chooser;
use run_history::History;
use situation_state::{State, fault_in};
use situation_steps::Time;
use std::alloc::{AllocError, Global};
use std::collections::VecDeque;

impl<H: Chooser + Drop> Execution<'_, H> {
    ghost use Rattle.estelle_model.specs.Firing.{bare};
    ghost use Rattle.situation_state.specs.At.{NothingNoted};
    ghost use Rattle.situation_state.specs.Firings.{MayFire, IsFired};
    ghost use Rattle.situation.specs.Steps.{MaySettle, HasStarted, HasAllSystems};

    /// Notes the start that was put.
    fn note_start(&mut self, alloc: Global)
        requires { 1 ≤ self.old.history.spare }
        ensures noted { self.new.history.entries ≡ self.old.history.entries ++ noted self.old.writer (events.Start self.old.state.notes.outs.items self.old.state.notes.drops.items) ∷ [] }
        ensures empty { NothingNoted self.new.state.notes }
        ensures told { self.new.state ≡ record self.old.state { notes = self.new.state.notes } }
        ensures rest { self.new ≡ record self.old { history = self.new.history; state = self.new.state } }
    {
        let (outs, drops) = self.state.take_told(alloc);
        self.note(Event::Start { outs, drops });
    }

    /// Puts what the initialization did.
    fn put_first(&mut self, done: Done)
        requires { MayFire (bare self.old.state.program.now) self.old.state done }
        ensures put { IsFired (bare self.old.state.program.now) self.old.state self.new.state done }
        ensures rest { self.new ≡ record self.old { state = self.new.state } }
    {
        self.state.fire_start(done);
    }

    /// Puts what the initialization did into the situation, and notes it, or its fault.
    fn start(&mut self, alloc: Global, done: Done)
        requires { MaySettle (bare self.old.state.program.now) self.old done }
        ensures { HasStarted self.old self.new done }
    {
        match fault_in(&done.outcome) {
            None => {
                self.put_first(done);
                self.note_start(alloc);
            }
            Some(kind) => self.fail(Path::root(alloc), 0, kind),
        }
    }

    /// Finds all systems, where the start did not fault.
    fn find_systems(&mut self, alloc: Global) -> Result<(), AllocError>
        ensures { OnOk result (HasAllSystems self.old self.new) }
    {
        if self.end.is_none() {
            self.systems = all_systems(alloc, &self.state)?;
        }
        Ok(())
    }
}

/// Before the start.
fn fresh<'a, H: Chooser + Drop>(
    alloc: Global,
    program: &'a Program<'a>,
    limits: Limits,
    chooser: H,
) -> Result<Execution<'a, H>, AllocError>
    ensures { IfOk result (IsFresh program.now limits chooser) }
{
    Ok(Execution {
        state: State::bare(alloc, program, limits.budget)?,
        turns: limits.turns,
        delays: has_delays(program)?,
        systems: Vec::new(alloc),
        time: Time {
            known: 0,
            waited: 0,
            may_wait: true,
        },
        history: History::none(alloc),
        tickets: 0,
        flying: VecDeque::new(alloc),
        writer: 0,
        end: None,
        chooser,
    })
}

/// Runs the start.
pub(crate) fn begin<'a, H: Chooser + Drop>(
    alloc: Global,
    program: &'a Program<'a>,
    code: &CompiledProgram,
    limits: Limits,
    chooser: H,
) -> Result<Execution<'a, H>, AllocError>
    requires code { code.now ≡ program.now }
    requires leads { LeadsToStates program.now }
    requires room { limits.budget * (limits.turns + 1) < 2 ^ 63 }
    ensures { IfOk result (IsBegun H.draw program.now limits chooser) }
{
    let mut execution = fresh(alloc, program, limits, chooser)?;
    let job = execution.state.start_job(alloc)?;
    let done = code.fire(alloc, job)?;
    execution.history.reserve(2)?;
    execution.state.reserve(alloc, &done)?;
    execution.start(alloc, done);
    execution.find_systems(alloc)?;
    Ok(execution)
}
