//! Where variable accesses begin, and their components (ISO 7185, 6.5).

ghost use Rattle.std.specs.Prelude.{◌≡◌, IfOk, OnOk, Some};
ghost use Rattle.estelle_model.specs.declared.denoter.Denoter.{out-Denoter};
ghost use Rattle.body_compiler_emission.specs.Drafts.{grown, with_instr};
ghost use Rattle.body_compiler_emission.specs.Tails.{reached};
ghost use Rattle.body_compiler_emission.specs.Emitted as emitted;
ghost use Rattle.body_compiler_pieces.specs.ExpressionCode as code;

use crate::draft::Draft;
use crate::scope::Scope;
use body_code::Instr;
use estelle_model::{Denoter, Meaning};
use estelle_tree::Selector;
use std::alloc::AllocError;

/// An exported variable of the child that a module variable holds.
#[tactic(auto, using(crate::proofs::NameSteps::exported_begins))]
fn exported<'t>(
    scope: &'t Scope,
    unit: &mut Draft,
    modvar: u32,
    meaning: &'t Meaning,
) -> Result<&'t Denoter, AllocError>
    ensures { IfOk result (λ d. Some (unit.new, d.now) ≡ reached (emitted.exported scope.now modvar meaning.now) unit.old) }
{
    match meaning {
        Meaning::Exported { number, denoter } => match scope.export(modvar, *number) {
            None => Err(AllocError),
            Some(export) => {
                unit.push(Instr::Exp { modvar, export })?;
                Ok(denoter.denoter())
            }
        },
        _ => Err(AllocError),
    }
}

/// A variable of a child behind a module variable.
fn behind_module<'t>(
    scope: &'t Scope,
    unit: &mut Draft,
    modvar: u32,
    selectors: &[Selector],
) -> Result<&'t Denoter, AllocError>
    ensures { IfOk result (λ d. Some (unit.new, d.now) ≡ reached (emitted.behind_module scope.now modvar selectors.now) unit.old) }
{
    match selectors {
        [Selector::Field(name), ..] => exported(scope, unit, modvar, scope.meaning(name)),
        _ => Err(AllocError),
    }
}

/// Where an access begins.
#[tactic(auto, using(crate::proofs::NameSteps::own_begins, crate::proofs::NameSteps::export_begins, crate::proofs::NameSteps::local_begins, crate::proofs::NameSteps::var_begins, crate::proofs::NameSteps::module_begins))]
pub fn begun<'t>(
    scope: &'t Scope,
    unit: &mut Draft,
    meaning: &'t Meaning,
    selectors: &[Selector],
) -> Result<&'t Denoter, AllocError>
    ensures { IfOk result (λ d. Some (unit.new, d.now) ≡ reached (emitted.begun scope.now meaning.now selectors.now) unit.old) }
{
    match meaning {
        Meaning::Own { number, denoter } => {
            unit.push(Instr::Var(*number))?;
            Ok(denoter.denoter())
        }
        Meaning::Exported { number, denoter } => {
            unit.push(Instr::Var(*number))?;
            Ok(denoter.denoter())
        }
        Meaning::Local { number, denoter } => {
            let local = scope.local(*number)?;
            unit.push(Instr::Loc(local))?;
            Ok(denoter.denoter())
        }
        Meaning::Var { number, denoter } => {
            let local = scope.reference(*number)?;
            unit.push(Instr::Ref(local))?;
            Ok(denoter.denoter())
        }
        Meaning::Module(modvar) => behind_module(scope, unit, *modvar, selectors),
        _ => Err(AllocError),
    }
}

/// The first selector of an access behind where it begins.
pub fn first_selector(meaning: &Meaning) -> usize
    ensures { result ≡ emitted.first_selector meaning.now }
{
    match meaning {
        Meaning::Module(_) => 1,
        _ => 0,
    }
}

/// An item of an array, by an ordinal on top.
#[tactic(auto, using(crate::proofs::NameSteps::item_is))]
pub fn item(unit: &mut Draft, denoter: &Denoter) -> Result<(), AllocError>
    ensures { OnOk result (unit.new ≡ grown (code.item_code (out-Denoter denoter.now)) unit.old) }
{
    match denoter {
        Denoter::Array { low, high, .. } => unit.push(Instr::Index {
            low: *low,
            high: *high,
        }),
        _ => Err(AllocError),
    }
}
