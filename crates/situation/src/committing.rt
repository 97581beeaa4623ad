//! What was computed of a firing is put into the situation as it is now, and noted.

ghost use Rattle.std.specs.Prelude.{◌≡◌, ◌≤◌, ◌<◌, ℕ, true, slice_get, Some, map as each};
ghost use Rattle.situation.specs.Runs.{ended_at, end_at};

use crate::execution::Execution;
use crate::limits::Committed;
use crate::putting::put_firing;
use crate::systems::note_in_all;
use crate::tickets::place_of;
use estelle_model::{Done, End};
use estelle_tree::Path;
use outside::Chooser;
use run_history::{Taken, count_fires};
use situation_state::fault_in;
use std::alloc::Global;

impl<H: Chooser + Drop> Execution<'_, H> {
    ghost use Rattle.situation_state.specs.Firings.{MayFire, IsFired};
    ghost use Rattle.situation_steps.specs.Systems.{after_firing};
    ghost use Rattle.situation.specs.Worlds.{IsExecution, now};
    ghost use Rattle.situation.specs.Steps.{MaySettle, HasSettled, IsUnderTicket, MayCommit, HasCommitted};

    /// Puts what a firing did into the situation that the run has come to.
    fn put(&mut self, done: Done)
        requires { MayFire (now self.old) self.old.state done }
        ensures put { IsFired (now self.old) self.old.state self.new.state done }
        ensures rest { self.new ≡ record self.old { state = self.new.state } }
    {
        put_firing(&mut self.state, &self.history, done);
    }

    /// The system of what fired awaits a selection, as do those at which outputs arrived.
    fn put_others(&mut self, path: &Path)
        ensures systems { self.new.systems.items ≡ each (after_firing path.now self.old.state.notes.arrivals.items) self.old.systems.items }
        ensures rest { self.new ≡ record self.old { systems = self.new.systems; time = record self.old.time { may_wait = true } } }
    {
        note_in_all(&mut self.systems, path, &self.state.notes.arrivals);
        self.time.may_wait = true;
    }

    /// The run ends where its firings have come to the limit.
    fn end_at_limit(&mut self)
        requires { 1 ≤ self.old.history.spare }
        ensures noted { self.new.history.entries ≡ ended_at self.old.writer self.old.turns self.old.history.entries }
        ensures rest { self.new ≡ record self.old { history = self.new.history; end = end_at self.old.turns self.old.end self.old.history.entries } }
    {
        if count_fires(&self.history) == u64::from(self.turns) {
            self.stop(End::Turns);
        }
    }

    /// Puts and notes what was computed of a firing that is under way, or its fault.
    fn settle(&mut self, alloc: Global, at: usize, done: Done) -> Committed
        requires may { MaySettle (now self.old) self.old done }
        requires there { IsUnderTicket at self.old done }
        ensures { HasSettled (now self.old) self.old self.new at done result }
    {
        let Some(Taken { path, trans, .. }) = self.flying.remove(at) else {
            unreachable!()
        };
        match fault_in(&done.outcome) {
            None => {
                self.put(done);
                self.put_others(&path);
                self.note_firing(alloc, path, trans);
                self.end_at_limit();
                Committed::Fired
            }
            Some(kind) => {
                self.fail(path, trans, kind);
                Committed::Faulted
            }
        }
    }

    /// Commits what was computed of a firing that is under way. Behind an end nothing changes. It takes no memory.
    pub(crate) fn commit(&mut self, alloc: Global, done: Done) -> Committed
        requires keeps { IsExecution self.old }
        requires may { MayCommit self.old done }
        ensures { HasCommitted self.old self.new done result }
    {
        if let Some(end) = self.end {
            return Committed::Late(end);
        }
        let Some(at) = place_of(&self.flying, done.ticket) else {
            unreachable!()
        };
        self.settle(alloc, at, done)
    }
}
