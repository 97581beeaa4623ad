//! The least of all rules.

ghost use Rattle.std.specs.Prelude.{◌≡◌, IfOk, IfErr};
ghost use Rattle.scope_rules.specs.declared.refusal.Refusal.TheVariants.{Memory};
ghost use Rattle.scope_rules.specs.Least.{IsFirst, Refuses};
ghost use Rattle.spec_accept.specs.Rules as rules;

use crate::checked::Checked;
use estelle_tree::{Names, Spec};
use scope_names::resolve;
use scope_rules::{Breach, Refusal, noted};
use std::alloc::Global;

/// The breach that a refusal tells.
fn told(answer: Result<(), Refusal>) -> Result<Option<Breach>, Refusal>
    ensures { result ≡ rules.told answer }
{
    match answer {
        Ok(()) => Ok(None),
        Err(Refusal::Rule { number, span }) => Ok(Some(Breach { number, span })),
        Err(Refusal::Memory) => Err(Refusal::Memory),
    }
}

/// Of what is broken of the rules from 10 on the breach that is reported, by what names mean.
fn first_breach(alloc: Global, spec: &Spec, names: &Names) -> Result<Option<Breach>, Refusal>
    ensures first { IfOk result (IsFirst (rules.MeaningRuleBroken spec.now names.now)) }
    ensures memory { IfErr result (λ refusal. refusal ≡ Memory) }
{
    let attributes = told(attribute_rules::check(alloc, spec, names))?;
    let channels = told(channel_roles::check(alloc, spec, names))?;
    let transitions = told(transition_expand::check(alloc, spec, names))?;
    let types = told(pascal_check::check(alloc, spec, names))?;
    Ok(noted(noted(noted(attributes, channels), transitions), types))
}

/// The specification with what its names mean, where none of the rules is broken; else the least rule that is broken,
/// with the first node in the text that breaks it. The specification is dropped then.
pub fn accept(alloc: Global, spec: Spec) -> Result<Checked, Refusal>
    requires spelled { rules.IsSpelled spec }
    // What an accepted one keeps is what its type says: it was read, no rule is broken, and the names are the tree's.
    ensures accepted { IfOk result (λ found. found.spec ≡ spec) }
    ensures refused { IfErr result (Refuses (rules.RuleBroken spec)) }
{
    let names = match resolve(alloc, &spec) {
        Ok(names) => names,
        Err(refusal) => return Err(refusal),
    };
    match first_breach(alloc, &spec, &names) {
        Ok(None) => Ok(Checked { spec, names }),
        Ok(Some(breach)) => Err(Refusal::Rule {
            number: breach.number,
            span: breach.span,
        }),
        Err(refusal) => Err(refusal),
    }
}
