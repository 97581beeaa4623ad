//! The rules 30 to 33 of a whole specification.

ghost use Rattle.std.specs.Prelude.{IfErr, OnOk};
ghost use Rattle.scope_rules.specs.declared.refusal.Breach.{Breach};
ghost use Rattle.scope_rules.specs.Least.{Refuses};
ghost use Rattle.transition_expand.specs.TransitionRules.{TransitionRuleBroken};

use crate::domains::domains_in;
use crate::rules::TransitionRules;
use body_table::meanings;
use declaration_table::declarations;
use estelle_tree::{Names, Spec};
use scope_rules::Refusal;
use std::alloc::Global;

/// Nothing where none of the rules 30 to 33 is broken; else the least of these rules that is broken, with the first node in
/// the text that breaks it.
pub fn check(alloc: Global, tree: &Spec, names: &Names) -> Result<(), Refusal>
    ensures kept { OnOk result ((b : Breach) → ¬ (TransitionRuleBroken tree.now names.now b)) }
    ensures refused { IfErr result (Refuses (TransitionRuleBroken tree.now names.now)) }
{
    let types = declarations(alloc, tree, names)?;
    let domains = domains_in(alloc, tree, &types)?;
    let meanings = meanings(alloc, tree, names)?;
    visit_rules::check(
        tree,
        &TransitionRules {
            domains: &domains,
            meanings: &meanings,
        },
    )
}
