//! The rules 40 to 48 of a whole specification.

ghost use Rattle.std.specs.Prelude.{IfErr, OnOk};
ghost use Rattle.scope_rules.specs.declared.refusal.Breach.{Breach};
ghost use Rattle.scope_rules.specs.Least.{Refuses};
ghost use Rattle.type_rules.specs.PascalRules.{PascalRuleBroken};

use crate::reported::judge;
use declaration_table::declarations;
use estelle_tree::{Names, Sequence, Spec};
use pascal_check_sites::sites;
use scope_rules::Refusal;
use std::alloc::Global;

/// Nothing where none of the rules 40 to 48 is broken; else the least of these rules that is broken, with the first
/// node in the text that breaks it.
pub fn check(alloc: Global, tree: &Spec, names: &Names) -> Result<(), Refusal>
    ensures kept { OnOk result ((b : Breach) → ¬ (PascalRuleBroken tree.now names.now b)) }
    ensures refused { IfErr result (Refuses (PascalRuleBroken tree.now names.now)) }
{
    let table = declarations(alloc, tree, names)?;
    let sites = sites(alloc, tree, &table)?;
    match judge(alloc, sites.items())? {
        None => Ok(()),
        Some(breach) => Err(Refusal::Rule {
            number: breach.number,
            span: breach.span,
        }),
    }
}
