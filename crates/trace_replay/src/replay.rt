//! The judge, of a specification.

ghost use Rattle.std.specs.Prelude.{◌<◌, ◌^◌, length, OnOk, IfErr};
ghost use Rattle.trace_check.specs.Judging.{IsRunTo, IsRefused};
ghost use Rattle.estelle_model.specs.Subject.{subject};

use accepted_program::AcceptedProgram;
use estelle_model::{End, Run};
use spec_accept::Checked;
use std::alloc::Global;
use trace_check::{JudgeError, judge};

/// Whether events and an end are those of a run of an accepted specification with this budget, whatever its schedule was; or the first entry
/// that does not apply.
pub fn replay_run(
    alloc: Global,
    checked: &Checked,
    budget: u32,
    run: &Run,
    end: End,
) -> Result<(), JudgeError>
    requires counted { length run.now.events < 2 ^ 31 }
    ensures run { OnOk result (IsRunTo (subject checked.now.spec checked.now.names) budget run.now.events end) }
    ensures refused { IfErr result (IsRefused (subject checked.now.spec checked.now.names) budget run.now.events end) }
{
    let program = AcceptedProgram::new(alloc, checked)?;
    judge(alloc, &program, budget, run, end)
}
