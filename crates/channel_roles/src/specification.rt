//! The rules 20 to 25 of a whole specification.

ghost use Rattle.std.specs.Prelude.{IfErr, OnOk};
ghost use Rattle.scope_rules.specs.declared.refusal.Breach.{Breach};
ghost use Rattle.scope_rules.specs.Least.{Refuses};
ghost use Rattle.channel_roles.specs.ChannelRules.{ChannelRuleBroken};

use crate::rules::ChannelRules;
use estelle_tree::{Names, Spec};
use module_table::module_table;
use scope_rules::Refusal;
use std::alloc::Global;

/// Nothing where none of the rules 20 to 25 is broken; else the least of these rules that is broken, with the first node in
/// the text that breaks it.
pub fn check(alloc: Global, tree: &Spec, names: &Names) -> Result<(), Refusal>
    ensures kept { OnOk result ((b : Breach) → ¬ (ChannelRuleBroken tree.now names.now b)) }
    ensures refused { IfErr result (Refuses (ChannelRuleBroken tree.now names.now)) }
{
    let table = module_table(alloc, tree, names)?;
    visit_rules::check(tree, &ChannelRules { table: &table })
}
