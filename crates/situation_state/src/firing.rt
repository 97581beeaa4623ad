//! A firing is taken, and what was computed of it is put.

ghost use Rattle.std.specs.Prelude.{◌≡◌, ◌<◌, List, length, slice_get, Some, OnOk};
ghost use Rattle.std.specs.List.{remove};
ghost use Rattle.estelle_tree.specs.declared.transition.Pair.{Pair as Seen};
ghost use Rattle.estelle_model.specs.Situation.{Situation};
ghost use Rattle.estelle_model.specs.Firing.{bare};
ghost use Rattle.effect_log.specs.Rooms.{HasRoomFor, SeesTheSame, NotesTheSame};
ghost use Rattle.situation_state.specs.At.{IsAt, NothingNoted};
ghost use Rattle.situation_state.specs.Firings.{MayFire, IsFired};

use crate::state::State;
use effect_log::reserve_for;
use estelle_model::{Done, Out, Pair};
use estelle_tree::Items;
use situation_images::{RunSoFar, put_firing, put_start};
use std::alloc::{AllocError, Global};

impl State<'_> {
    /// Takes a firing that is pending. It takes no memory; of the first or the last one it takes no longer where more are pending.
    pub fn take(&mut self, at: usize) -> Pair
        requires { at < length self.old.untaken.items }
        ensures its { slice_get self.old.untaken.items at ≡ Some result }
        ensures left { self.new.untaken.items ≡ remove self.old.untaken.items at }
        ensures at { (g : Situation) (ps : List Seen) → IsAt g ps self.old → IsAt g (remove ps at) self.new }
        ensures rest { self.new ≡ record self.old { untaken = self.new.untaken } }
    {
        let Some(pair) = self.untaken.remove(at) else {
            unreachable!()
        };
        pair
    }

    /// Makes the room for what was done. An error is want of memory.
    pub fn reserve(&mut self, alloc: Global, done: &Done) -> Result<(), AllocError>
        ensures room { OnOk result (HasRoomFor done.now.outcome self.new.shared self.new.notes) }
        ensures same { SeesTheSame self.old.shared self.new.shared }
        ensures notes { NotesTheSame self.old.notes self.new.notes }
        ensures at { (g : Situation) (ps : List Seen) → IsAt g ps self.old → IsAt g ps self.new }
        ensures rest { self.new ≡ record self.old { shared = self.new.shared; notes = self.new.notes } }
    {
        reserve_for(alloc, &mut self.shared, done, &mut self.notes)
    }

    /// Puts a firing for which the room was made, in the situation that the run so far leads to. Its timer goes, and the notes tell
    /// its outputs in order, what it dropped, and where outputs arrived. It takes no memory.
    pub fn fire<R: RunSoFar>(&mut self, so_far: &R, done: Done)
        requires { MayFire (R.leads_to so_far.now self.old.program.now) self.old done }
        ensures { IsFired (R.leads_to so_far.now self.old.program.now) self.old self.new done }
    {
        self.timers.drop_one(&done.path, done.trans);
        put_firing(
            self.program,
            so_far,
            &mut self.shared,
            done,
            &mut self.notes,
        );
    }

    /// Puts the initialization, for which the room was made. It takes no memory.
    pub fn fire_start(&mut self, done: Done)
        requires { MayFire (bare self.old.program.now) self.old done }
        ensures { IsFired (bare self.old.program.now) self.old self.new done }
    {
        self.timers.drop_one(&done.path, done.trans);
        put_start(self.program, &mut self.shared, done, &mut self.notes);
    }

    /// What the notes tell of a firing, which leaves them empty.
    pub fn take_told(&mut self, alloc: Global) -> (Items<Out>, Items<u64>)
        ensures outs { result.0 ≡ self.old.notes.outs.items }
        ensures drops { result.1 ≡ self.old.notes.drops.items }
        ensures empty { NothingNoted self.new.notes }
        ensures rest { self.new ≡ record self.old { notes = self.new.notes } }
    {
        let outs = std::mem::replace(&mut self.notes.outs, Vec::new(alloc));
        let drops = std::mem::replace(&mut self.notes.drops, Vec::new(alloc));
        self.notes.arrivals.clear();
        (Items::from_vec(outs), Items::from_vec(drops))
    }

    /// Empties the notes.
    pub fn forget_told(&mut self)
        ensures empty { NothingNoted self.new.notes }
        ensures rest { self.new ≡ record self.old { notes = self.new.notes } }
    {
        self.notes.outs.clear();
        self.notes.drops.clear();
        self.notes.arrivals.clear();
    }
}
