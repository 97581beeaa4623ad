//! Runs of accepted specifications.

ghost use Rattle.std.specs.Prelude.{◌≡◌, ◌≤◌, IfOk};
ghost use Rattle.outside.specs.Counts.{Rose};
ghost use Rattle.outside.specs.Choices.{any_drawn};
ghost use Rattle.estelle_model.specs.declared.event.End.TheVariants.{Clock as ByClock};
ghost use Rattle.estelle_cli.specs.Tasks.{AreLimits};
ghost use Rattle.estelle_cli.specs.Answers.{chooser_by};
ghost use Rattle.situation.specs.Runs.{IsStopped};
ghost use Rattle.estelle_model.specs.Subject.{subject};

use estelle_model::{End, Run};
use outside::{AnyChooser, Clock, FirstChooser, SeedChooser};
use situation::{Limits, execute};
use spec_accept::Checked;
use std::alloc::{AllocError, Global};

/// The chooser of a run.
pub(crate) fn chooser_by(seed: Option<u64>) -> AnyChooser
    ensures { result ≡ chooser_by seed }
{
    match seed {
        None => AnyChooser::First(FirstChooser),
        Some(seed) => AnyChooser::Seeded(SeedChooser::new(seed)),
    }
}

/// Runs an accepted specification to its end, and gives the clock back.
pub(crate) fn executed<C: Clock>(
    alloc: Global,
    checked: &Checked,
    limits: Limits,
    seed: Option<u64>,
    clock: C,
) -> (Result<(Run, End), AllocError>, C)
    requires range { AreLimits limits }
    ensures stopped { IfOk result.0 (λ r. IsStopped any_drawn (chooser_by seed) (C.moment clock) (subject checked.now.spec checked.now.names) limits.budget limits.turns r.0.events r.1) }
    ensures cause { IfOk result.0 (λ r. r.1 ≡ ByClock → Rose (C.faults clock) (C.faults result.1)) }
    ensures later { C.faults clock ≤ C.faults result.1 }
{
    execute(alloc, checked, limits, clock, chooser_by(seed))
}
