//! Jobs.

ghost use Rattle.std.specs.Prelude.{◌≡◌, ◌<◌, length, slice_get, Some, List, IfOk, Contains};
ghost use Rattle.estelle_tree.specs.declared.transition.Pair.{Pair as Seen};
ghost use Rattle.estelle_model.specs.Situation.{Situation};
ghost use Rattle.estelle_model_legality.specs.Jobs as legal;
ghost use Rattle.estelle_model_legality.specs.Situations.{IsLegal};
ghost use Rattle.body_state.specs.InOrder.{InOrder};
ghost use Rattle.situation_state.specs.At.{IsAt};

use crate::state::State;
use estelle_model::Job;
use situation_images::{job_of, start_job};
use std::alloc::{AllocError, Global};

impl State<'_> {
    /// The job of the initialization. An error is want of memory.
    pub fn start_job(&self, alloc: Global) -> Result<Job, AllocError>
        ensures job { IfOk result (λ job. job ≡ legal.start_job self.now.program.now self.now.budget) }
        ensures condition { IfOk result (λ job. legal.IsJob self.now.program.now job) }
    {
        start_job(alloc, self.program, self.budget)
    }

    /// The job of a firing that is pending and was not taken, with a ticket. It takes the time of the instances at and below its
    /// own, and of all links. An error is want of memory.
    pub fn job(&self, alloc: Global, at: usize, ticket: u64) -> Result<Job, AllocError>
        requires there { at < length self.now.untaken.items }
        ensures job { (g : Situation) (ps : List Seen) (p : Seen) → IsAt g ps self.now → IsLegal self.now.program.now g → slice_get self.now.untaken.items at ≡ Some p → Contains g.pending p
            → IfOk result (λ job. job ≡ legal.job_of self.now.program.now g ticket self.now.budget p) }
        ensures in_order { (g : Situation) (ps : List Seen) → IsAt g ps self.now → IsLegal self.now.program.now g → IfOk result (λ job. InOrder job.image.parts) }
    {
        job_of(
            alloc,
            self.program,
            &self.shared,
            &self.untaken[at],
            ticket,
            self.budget,
        )
    }
}
