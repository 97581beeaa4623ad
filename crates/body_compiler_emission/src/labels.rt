//! The labels of cases (ISO 7185, 6.8.3.5).

ghost use Rattle.std.specs.Prelude.{◌≡◌, IfOk, OnOk, drop};
ghost use Rattle.body_compiler_pieces.specs.StatementCode as code;
ghost use Rattle.body_compiler_emission.specs.Drafts.{grown};
ghost use Rattle.body_compiler_emission.specs.Scopes.{scope_of};
ghost use Rattle.body_compiler_emission.specs.EmittedStatements as emitted;

use crate::control::recall;
use crate::draft::Draft;
use crate::scope::Scope;
use body_code::Instr;
use estelle_tree::{Const, Items};
use pascal_values::Value;
use std::alloc::AllocError;

/// The ordinals of labels. What is no constant has none, and no code.
#[tactic(auto, using(crate::proofs::LabelSteps::ordinal_kept, crate::proofs::LabelSteps::ordinals_end, crate::proofs::LabelSteps::label_kept, crate::proofs::LabelSteps::labels_begin, crate::proofs::LabelSteps::labels_end))]
pub fn ordinals(scope: &Scope, labels: &[Const]) -> Result<Items<i64>, AllocError>
    ensures values { IfOk result (λ ns. ns ≡ code.ordinals_of (scope_of scope.now).meant labels.now) }
    ensures all { IfOk result (λ ns. emitted.AreOrdinals (scope_of scope.now).meant labels.now) }
{
    let mut ordinals = Items::new(scope.alloc);
    for label in labels {
        let Some(ordinal) = scope.ordinal(label) else {
            return Err(AllocError);
        };
        ordinals.push(ordinal)?;
    }
    Ok(ordinals)
}

/// Whether a temporary holds an integer.
#[tactic(auto, using(crate::proofs::LabelSteps::one_steps))]
fn is_one(unit: &mut Draft, temporary: u32, ordinal: &i64) -> Result<(), AllocError>
    ensures { OnOk result (unit.new ≡ grown (emitted.is_one temporary ordinal.now) unit.old) }
{
    recall(unit, temporary)?;
    unit.push(Instr::Push(Value::Int(*ordinal)))?;
    unit.push(Instr::Eq)
}

/// Whether it holds one of several, from a first one on. It calls itself for each label behind that one.
#[tactic(auto, using(crate::proofs::LabelSteps::none_from, crate::proofs::LabelSteps::last_from, crate::proofs::LabelSteps::more_from))]
pub fn is_one_of(
    unit: &mut Draft,
    temporary: u32,
    ordinals: &[i64],
    first: usize,
) -> Result<(), AllocError>
    ensures { OnOk result (unit.new ≡ grown (emitted.is_one_of temporary (drop first ordinals.now)) unit.old) }
{
    if first >= ordinals.len() {
        unit.push(Instr::Push(Value::Bool(false)))?;
        return Ok(());
    }
    let ordinal = &ordinals[first];
    is_one(unit, temporary, ordinal)?;
    if first + 1 >= ordinals.len() {
        return Ok(());
    }
    let test = unit.hole(Instr::Jfalse(0))?;
    unit.push(Instr::Push(Value::Bool(true)))?;
    let end = unit.hole(Instr::Jump(0))?;
    is_one_of(unit, temporary, ordinals, first + 1)?;
    unit.close_fork(test, end)?;
    Ok(())
}
