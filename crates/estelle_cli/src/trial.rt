//! Runs of the ring, told by their counts.

ghost use Rattle.std.specs.Prelude.{◌≡◌, Some, IfOk, IfErr};
ghost use Rattle.outside.specs.Choices.{any_drawn};
ghost use Rattle.spec_maker.specs.Ring.{IsRing};
ghost use Rattle.situation.specs.Runs.{IsStopped};
ghost use Rattle.estelle_model.specs.Subject.{subject};
ghost use Rattle.estelle_cli.specs.declared.outcome.Close.TheVariants as close;
ghost use Rattle.estelle_cli.specs.declared.outcome.Stop.TheVariants as stop;
ghost use Rattle.estelle_cli.specs.Tasks.{AreLimits, AreStations};
ghost use Rattle.estelle_cli.specs.Answers.{chooser_by, IsTried};

use crate::outcome::{Close, Stop};
use crate::running::executed;
use estelle_model::{End, Run};
use estelle_tree::Text;
use outside::VirtualClock;
use run_counts::counts_line;
use situation::Limits;
use spec_accept::{Checked, accept};
use spec_maker::make;
use std::alloc::{AllocError, Global};

/// The ring of n stations, accepted.
fn ring(alloc: Global, n: u32) -> Result<Checked, AllocError>
    requires { AreStations n }
    ensures made { IfOk result (λ checked. IsRing n checked.spec) }
{
    let spec = make(alloc, n)?;
    match accept(alloc, spec) {
        Ok(checked) => Ok(checked),
        // No ring breaks a rule, which is tested of ten sizes and not proved: what is left is want of memory.
        Err(_) => Err(AllocError),
    }
}

/// Runs an accepted specification by a clock of its own.
fn ran_apart(
    alloc: Global,
    checked: &Checked,
    limits: Limits,
    seed: Option<u64>,
) -> Result<(Run, End), AllocError>
    requires range { AreLimits limits }
    ensures { IfOk result (λ r. IsStopped any_drawn (chooser_by seed) (Some 0) (subject checked.now.spec checked.now.names) limits.budget limits.turns r.0.events r.1) }
{
    let (ran, _) = executed(alloc, checked, limits, seed, VirtualClock { moment: 0 });
    ran
}

/// Runs the ring of n stations, and gives the line of its counts and its end.
fn trial_line(alloc: Global, n: u32, limits: Limits, seed: Option<u64>) -> Result<Text, AllocError>
    requires stations { AreStations n }
    requires range { AreLimits limits }
    ensures { IfOk result (λ line. IsTried n limits seed line) }
{
    let checked = ring(alloc, n)?;
    let (run, end) = ran_apart(alloc, &checked, limits, seed)?;
    counts_line(alloc, &run, end)
}

/// The same, however the run ended.
pub fn tried(
    alloc: Global,
    n: u32,
    limits: Limits,
    seed: Option<u64>,
) -> Result<(Text, Close), Stop>
    requires stations { AreStations n }
    requires range { AreLimits limits }
    ensures close { IfOk result (λ x. x.1 ≡ close.Well) }
    ensures text { IfOk result (λ x. IsTried n limits seed x.0) }
    ensures cause { IfErr result (λ e. e ≡ stop.Memory) }
{
    let line = trial_line(alloc, n, limits, seed)?;
    Ok((line, Close::Well))
}
