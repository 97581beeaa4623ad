//! The flat transitions of a specification that keeps the rules on them.

ghost use Rattle.std.specs.Prelude.{◌≡◌, IfOk, IfErr, OnOk};
ghost use Rattle.scope_rules.specs.declared.refusal.Breach.{Breach};
ghost use Rattle.flat_transitions.specs.FlatList.{flat_list};
ghost use Rattle.transition_expand.specs.TransitionRules.{TransitionRuleBroken};
ghost use Rattle.transition_expand.specs.Refusals.{Refused, answered};

use crate::specification::check;
use estelle_tree::{Names, Span, Spec};
use flat_transitions::{Flat, flat_list};
use scope_rules::Refusal;
use std::alloc::Global;

/// Why there are no flat transitions.
#[derive(Clone, Copy, Debug, PartialEq, Eq)]
pub enum ExpandError {
    /// The least broken rule of 30 to 32, and the first node in the text that breaks it.
    Rule { number: u8, span: Span },
    /// None of these is broken, and this is the first body with more than 4,096 flat transitions.
    TooManyVariants { span: Span },
    /// Want of memory.
    Memory,
}

/// What a refusal says of flat transitions.
fn refused(refusal: Refusal) -> ExpandError
    ensures { result ≡ answered refusal }
{
    match refusal {
        Refusal::Rule { number, span } => {
            if number == 33 {
                ExpandError::TooManyVariants { span }
            } else {
                ExpandError::Rule { number, span }
            }
        }
        Refusal::Memory => ExpandError::Memory,
    }
}

/// The flat transitions of each body, where none of the rules 30 to 33 is broken; else the least of these rules that is
/// broken, with the first node in the text that breaks it.
pub fn expand(alloc: Global, spec: &Spec, names: &Names) -> Result<Flat, ExpandError>
    ensures listed { IfOk result (λ list. list ≡ flat_list (record { specification = spec.now; names = names.now.uses })) }
    ensures kept { OnOk result ((b : Breach) → ¬ (TransitionRuleBroken spec.now names.now b)) }
    ensures refused { IfErr result (Refused (TransitionRuleBroken spec.now names.now)) }
{
    if let Err(refusal) = check(alloc, spec, names) {
        return Err(refused(refusal));
    }
    match flat_list(alloc, spec, names) {
        Ok(list) => Ok(list),
        Err(_) => Err(ExpandError::Memory),
    }
}
