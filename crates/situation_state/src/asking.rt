//! What guards come to, and what a system selects by them.

ghost use Rattle.std.specs.Prelude.{◌≡◌, List, IfOk, IfErr};
ghost use Rattle.estelle_tree.specs.declared.transition.Pair.{Pair};
ghost use Rattle.estelle_model.specs.Situation.{Situation};
ghost use Rattle.estelle_model.specs.Attributes.{IsSystem};
ghost use Rattle.estelle_model_legality.specs.Situations.{IsLegal};
ghost use Rattle.situation_offers.specs.Asked.{IsOffering};
ghost use Rattle.situation_offers.specs.Selections.{IsSelection, IsRefusal, LeavesChooser};
ghost use Rattle.situation_state.specs.At.{IsAt};

use crate::state::State;
use body_jobs::Guards;
use estelle_tree::Path;
use outside::Chooser;
use situation_offers::{Chosen, Offering, SelectFault, View, ask, select};
use std::alloc::{AllocError, Global};

impl State<'_> {
    /// What the instances of a system count at a moment, by their guards, as this evaluator gives them. An error is want of memory.
    pub fn ask<G: Guards>(
        &self,
        alloc: Global,
        by: &G,
        system: &Path,
        moment: u64,
    ) -> Result<Offering, AllocError>
        requires guards { G.subject by.now ≡ self.now.program.now }
        ensures { (g : Situation) (ps : List Pair) → IsAt g ps self.now → IsLegal self.now.program.now g → IsSystem self.now.program.now g system.now
            → IfOk result (IsOffering self.now.program.now self.now.budget g system.now moment) }
    {
        ask(
            alloc,
            self.program,
            by,
            &self.shared,
            &self.timers,
            system,
            moment,
            self.budget,
        )
    }

    /// What a system selects at a moment, as the chooser chooses.
    pub fn choose<G: Guards, H: Chooser>(
        &self,
        alloc: Global,
        by: &G,
        system: &Path,
        moment: u64,
        chooser: &mut H,
    ) -> Result<Chosen, SelectFault>
        requires guards { G.subject by.now ≡ self.now.program.now }
        ensures selected { (g : Situation) (ps : List Pair) → IsAt g ps self.now → IsLegal self.now.program.now g → IsSystem self.now.program.now g system.now
            → IfOk result (λ c. IsSelection H.draw self.now.program.now self.now.budget g system.now moment chooser.old chooser.new c.takes.items c.wanted.items) }
        ensures faults { (g : Situation) (ps : List Pair) → IsAt g ps self.now → IsLegal self.now.program.now g → IsSystem self.now.program.now g system.now
            → IfErr result (IsRefusal self.now.program.now self.now.budget g system.now) }
        ensures leaves { IfErr result (LeavesChooser chooser.old chooser.new) }
    {
        let view = View {
            program: self.program,
            guards: by,
            shared: &self.shared,
            timers: &self.timers,
            budget: self.budget,
        };
        select(alloc, &view, system, moment, chooser)
    }
}
