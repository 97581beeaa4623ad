//! What jobs and guards come to.

ghost use Rattle.std.specs.Prelude.{◌≡◌, IfOk};
ghost use Rattle.pascal_values.specs.declared.fault.Fault.TheVariants as fault;
ghost use Rattle.estelle_model.specs.declared.job.Outcome.TheVariants as outcome;
ghost use Rattle.estelle_model.specs.States.{Logged};
ghost use Rattle.estelle_model.specs.Steps.{Step, Do};
ghost use Rattle.estelle_model.specs.Clauses as clauses;
ghost use Rattle.estelle_model.specs.Computed.{IsMadeBy};
ghost use Rattle.body_state.specs.Progress.{Progress, running};
ghost use Rattle.body_state.specs.Follows.{Follows};

use body_state::{ModuleBodies, Walk};
use body_values::Stop;
use estelle_model::{Guard, Outcome};
use pascal_values::Fault;
use std::alloc::{AllocError, Global};

/// What a run came to, and the units left.
pub fn finish(
    bodies: &ModuleBodies,
    alloc: Global,
    walk: Walk,
    ran: Result<(), Stop>,
) -> Result<(Outcome, u32), AllocError>
    ensures { (step : Do Logged) (old : Progress) → Follows step old ran walk.entry → IfOk result (λ made. IsMadeBy bodies.now (step (running old)) made.0 made.1) }
{
    let left = walk.left();
    match ran {
        Ok(()) => {
            let (image, effects) = walk.into_made(alloc, bodies)?;
            Ok((Outcome::Ran { image, effects }, left))
        }
        Err(Stop::Fault(fault)) => Ok((Outcome::Faulted(fault), left)),
        Err(Stop::Broken) => Ok((Outcome::Faulted(Fault::Unset), left)),
        Err(Stop::Memory) => Err(AllocError),
    }
}

/// Where there is no such transition, nothing is asked.
pub fn nothing(budget: u32) -> (Outcome, u32)
    ensures { result ≡ (outcome.Faulted fault.NoModule, budget) }
{
    (Outcome::Faulted(Fault::NoModule), budget)
}

/// A guard as it is answered: a fault is an answer too, as which a broken rule is told.
pub fn answered(guard: Result<Guard, Stop>) -> Result<Guard, AllocError>
    ensures { (step : Step Logged Guard) (old new : Progress) → Follows step old guard new → IfOk result (λ answer. answer ≡ clauses.answered (step (running old))) }
{
    match guard {
        Ok(guard) => Ok(guard),
        Err(Stop::Fault(fault)) => Ok(Guard::Faulted(fault)),
        Err(Stop::Broken) => Ok(Guard::Faulted(Fault::Unset)),
        Err(Stop::Memory) => Err(AllocError),
    }
}
