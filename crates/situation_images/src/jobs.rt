//! The job of a pending firing.

ghost use Rattle.std.specs.Prelude.{◌≡◌, ℕ, IfOk, Contains};
ghost use Rattle.estelle_model.specs.Situation.{Situation};
ghost use Rattle.estelle_model_legality.specs.Jobs as legal;
ghost use Rattle.estelle_model_legality.specs.Situations.{IsLegal};
ghost use Rattle.body_state.specs.InOrder.{InOrder};
ghost use Rattle.effect_log.specs.Standing.{Stands};

use crate::heads::copied_head;
use crate::images::image_of;
use body_jobs::root_image;
use body_program::Program;
use effect_log::Shared;
use estelle_model::{Interaction, Job, Pair};
use estelle_tree::Path;
use std::alloc::{AllocError, Global};

/// What a pending firing receives, as a copy.
fn head(
    alloc: Global,
    program: &Program,
    shared: &Shared,
    pair: &Pair,
) -> Result<Option<Interaction>, AllocError>
    ensures { (g : Situation) (ticket budget : ℕ) → Stands program.now shared.now g → IsLegal program.now g → Contains g.pending pair.now → IfOk result (λ head. head ≡ (legal.job_of program.now g ticket budget pair.now).head) }
{
    match shared.tree.get(&pair.path) {
        None => Ok(None),
        Some(part) => copied_head(alloc, program, shared, &pair.path, part.body, pair.trans),
    }
}

/// The job of a firing that is pending. It takes the time of the instances at and below its own, and of all links.
pub fn job_of(
    alloc: Global,
    program: &Program,
    shared: &Shared,
    pair: &Pair,
    ticket: u64,
    budget: u32,
) -> Result<Job, AllocError>
    ensures job { (g : Situation) → Stands program.now shared.now g → IsLegal program.now g → Contains g.pending pair.now → IfOk result (λ job. job ≡ legal.job_of program.now g ticket budget pair.now) }
    ensures in_order { (g : Situation) → Stands program.now shared.now g → IsLegal program.now g → IfOk result (λ job. InOrder job.image.parts) }
    ensures condition { (g : Situation) → Stands program.now shared.now g → IsLegal program.now g → legal.HasRoom budget g → Contains g.pending pair.now → IfOk result (λ job. legal.IsJob program.now job) }
{
    Ok(Job {
        ticket,
        path: pair.path.copy(alloc)?,
        trans: pair.trans,
        image: image_of(alloc, program, shared, &pair.path)?,
        head: head(alloc, program, shared, pair)?,
        budget,
    })
}

/// The job of the initialization: the specification's own instance as it is made, alone.
pub fn start_job(alloc: Global, program: &Program, budget: u32) -> Result<Job, AllocError>
    ensures job { IfOk result (λ job. job ≡ legal.start_job program.now budget) }
    ensures condition { IfOk result (λ job. legal.IsJob program.now job) }
{
    let path = Path::root(alloc);
    let image = root_image(alloc, program.bodies())?;
    Ok(Job {
        ticket: 0,
        path,
        trans: 0,
        image,
        head: None,
        budget,
    })
}
