//! Firings that are taken: one is picked, its job is made, and it is under way until it is committed.

ghost use Rattle.std.specs.Prelude.{◌≡◌, ◌≢◌, ◌≤◌, ◌<◌, ◌+◌, ◌^◌, ℕ, [], length, slice_get, Some, IfOk, OnOk, OnErr, MatchOption};
ghost use Rattle.std.specs.VecDeque.{deque_len, deque_capacity};
ghost use Rattle.situation.specs.Steps.{NoneHas, IsTicketAt};

use crate::execution::Execution;
use estelle_model::{Done, Job, Pair};
use estelle_tree::Path;
use outside::Chooser;
use run_history::{Entry, Taken, What};
use std::alloc::{AllocError, Global};
use std::collections::VecDeque;
use transition_select::pick;

/// A firing that the chooser picked of those that nobody has taken, by its place, and its job.
#[derive(Drop)]
pub(crate) struct Choice {
    pub(crate) at: usize,
    pub(crate) path: Path,
    pub(crate) job: Job,
}

/// The place of a ticket in a list of firings.
pub(crate) fn place_of(flying: &VecDeque<Taken>, ticket: u64) -> Option<usize>
    ensures { MatchOption result (NoneHas ticket flying.now.items) (IsTicketAt ticket flying.now.items) }
{
    for at in 0..flying.len() {
        if flying[at].ticket == ticket {
            return Some(at);
        }
    }
    None
}

impl<H: Chooser + Drop> Execution<'_, H> {
    ghost use Rattle.estelle_tree.specs.Timers.{pair};
    ghost use Rattle.effect_log.specs.Rooms.{HasRoomFor};
    ghost use Rattle.situation.specs.Worlds.{IsUnchanged};
    ghost use Rattle.run_history.specs.Histories.{fires};
    ghost use Rattle.situation.specs.Steps.{GoesOn, HasChosen, HasTakenAt, HasReserved};

    /// The chooser picks one of the firings that nobody has taken. Its job has the next ticket.
    pub(crate) fn choose(&mut self, alloc: Global) -> Result<Choice, AllocError>
        requires open { GoesOn 0 self.old }
        requires below { fires self.old.history.entries < self.old.turns }
        requires some { self.old.state.untaken.items ≢ [] }
        ensures chosen { IfOk result (HasChosen H.draw self.old self.new) }
        ensures refused { OnErr result (IsUnchanged self.old self.new) }
    {
        self.history.reserve(1)?;
        self.flying.reserve(1)?;
        let at = pick(&mut self.chooser, self.state.untaken.len());
        let path = self.state.untaken[at].path.copy(alloc)?;
        let job = self.state.job(alloc, at, self.tickets + 1)?;
        Ok(Choice { at, path, job })
    }

    /// Takes a pending firing, under the next ticket. It takes no memory.
    pub(crate) fn take(&mut self, at: usize, path: Path)
        requires there { at < length self.old.state.untaken.items }
        requires room { deque_len self.old.flying < deque_capacity self.old.flying }
        requires spare { 1 ≤ self.old.history.spare }
        requires number { self.old.tickets + 1 < 2 ^ 64 }
        ensures { (trans : ℕ) → slice_get self.old.state.untaken.items at ≡ Some (pair path trans) → HasTakenAt at (pair path trans) self.old self.new }
    {
        let by = self.writer;
        let Pair { path: own, trans } = self.state.take(at);
        self.tickets += 1;
        let ticket = self.tickets;
        self.flying.push_back_reserved(Taken {
            ticket,
            path: own,
            trans,
            by,
        });
        self.history.add(Entry {
            by,
            what: What::Take {
                ticket,
                path,
                trans,
            },
        });
    }

    /// Makes the room for what was computed, and for its entries.
    pub(crate) fn reserve(&mut self, alloc: Global, done: &Done) -> Result<(), AllocError>
        ensures room { OnOk result (HasRoomFor done.now.outcome self.new.state.shared self.new.state.notes) }
        ensures spare { OnOk result (3 ≤ self.new.history.spare) }
        ensures same { HasReserved self.old self.new }
    {
        self.history.reserve(3)?;
        self.state.reserve(alloc, done)
    }
}
