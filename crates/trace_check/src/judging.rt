//! The judge of events and an end.

ghost use Rattle.std.specs.Prelude.{◌≡◌, ◌<◌, ◌*◌, ◌^◌, length, IfOk, IfErr};
ghost use Rattle.estelle_model.specs.Subject.{Subject};
ghost use Rattle.estelle_model.specs.declared.event.Event.{Event as Seen};
ghost use Rattle.estelle_model_fates.specs.Fates.{HaveOneFate};
ghost use Rattle.estelle_model_fates.specs.Order.{AreFirstInFirstOut};
ghost use Rattle.estelle_model_legality.specs.Instances.{LeadsToStates};
ghost use Rattle.trace_check.specs.Judging.{IsRunTo, IsRefused};
ghost use Rattle.trace_check.specs.JudgedParts.{HasBegun};

use crate::begin::begin;
use crate::error::JudgeError;
use crate::judged_part::JudgedPart;
use accepted_program::AcceptedProgram;
use estelle_model::{End, Run};
use estelle_model_fates::{first_in_is_first_out, outputs_have_one_fate};
use std::alloc::Global;

/// Judges the events after the first, and the end.
fn judge_rest(
    alloc: Global,
    mut judged_part: JudgedPart,
    count: usize,
    end: End,
) -> Result<(), JudgeError>
    requires few { count < 2 ^ 31 }
    requires all { count ≡ length judged_part.events.now }
    requires begun { HasBegun judged_part.state.program.now judged_part.state.budget judged_part.events.now judged_part }
    requires leads { LeadsToStates judged_part.state.program.now }
    ensures run { IfOk result (λ _. IsRunTo judged_part.entry.state.program.now judged_part.entry.state.budget judged_part.entry.events.now end) }
    ensures fates { IfOk result (λ _. HaveOneFate judged_part.entry.state.program.now judged_part.entry.state.budget judged_part.entry.events.now) }
    ensures order { IfOk result (λ _. AreFirstInFirstOut judged_part.entry.state.program.now judged_part.entry.state.budget judged_part.entry.events.now) }
    ensures refused { IfErr result (IsRefused judged_part.entry.state.program.now judged_part.entry.state.budget judged_part.entry.events.now end) }
{
    outputs_have_one_fate();
    first_in_is_first_out();
    let events = judged_part.events;
    for index in 1..count {
        if !judged_part.step(alloc, &events[index])? {
            return Err(JudgeError::NotARun {
                entry: index as u32 + 1,
            });
        }
    }
    if judged_part.may_end(alloc, end)? {
        Ok(())
    } else {
        Err(JudgeError::NotARun {
            entry: count as u32 + 1,
        })
    }
}

/// Whether events and an end are those of a run with this budget, whatever its schedule was; or the first entry that does not
/// apply. Of those that are, each output has exactly one fate, and interactions of one queue that were never moved leave it in order.
pub fn judge(
    alloc: Global,
    program: &AcceptedProgram,
    budget: u32,
    run: &Run,
    end: End,
) -> Result<(), JudgeError>
    requires counted { length run.now.events < 2 ^ 31 }
    ensures run { IfOk result (λ _. IsRunTo program.now budget run.now.events end) }
    ensures fates { IfOk result (λ _. HaveOneFate program.now budget run.now.events) }
    ensures order { IfOk result (λ _. AreFirstInFirstOut program.now budget run.now.events) }
    ensures refused { IfErr result (IsRefused program.now budget run.now.events end) }
{
    let events = run.events.as_slice();
    let Some(first) = events.first() else {
        return Err(JudgeError::NotARun { entry: 1 });
    };
    let begun = begin(alloc, program.program(), budget, events, first)?;
    match begun {
        None => Err(JudgeError::NotARun { entry: 1 }),
        Some(judged_part) => judge_rest(alloc, judged_part, events.len(), end),
    }
}
