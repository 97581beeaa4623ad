//! A system selects.

ghost use Rattle.std.specs.Prelude.{◌≡◌, ◌++◌, List, OnOk, OnErr};
ghost use Rattle.estelle_tree.specs.declared.transition.Pair.{Pair as Seen};
ghost use Rattle.estelle_model.specs.Situation.{Situation};
ghost use Rattle.estelle_model.specs.Delays as delays;
ghost use Rattle.estelle_model.specs.Runs.{selected};
ghost use Rattle.delay_timers.specs.Moments.{AreDifferent};
ghost use Rattle.situation_state.specs.At.{IsAt};

use crate::list::{append, copies};
use crate::state::State;
use estelle_model::Pair;
use estelle_tree::{Path, Wanted};
use std::alloc::{AllocError, Global};

impl State<'_> {
    /// What a system has selected is pending behind the rest, and its timers are renewed. After a refusal, which is want of memory,
    /// all is as before.
    pub fn select(
        &mut self,
        alloc: Global,
        system: &Path,
        moment: u64,
        takes: &[Pair],
        wanted: &[Wanted],
    ) -> Result<(), AllocError>
        requires different { AreDifferent wanted.now }
        ensures at { OnOk result ((g : Situation) (ps : List Seen) → IsAt g ps self.old → wanted.now ≡ delays.wanted self.old.program.now self.old.budget g system.now
            → IsAt (selected self.old.program.now self.old.budget g system.now moment takes.now) (ps ++ takes.now) self.new) }
        ensures refused { OnErr result ((g : Situation) (ps : List Seen) → IsAt g ps self.old → IsAt g ps self.new) }
        ensures rest { self.new ≡ record self.old { timers = self.new.timers; untaken = self.new.untaken; moment = self.new.moment } }
    {
        let copies = copies(alloc, takes)?;
        self.untaken.reserve(copies.len())?;
        self.timers.renew(alloc, system, moment, wanted)?;
        self.moment = moment;
        append(&mut self.untaken, copies);
        Ok(())
    }
}
