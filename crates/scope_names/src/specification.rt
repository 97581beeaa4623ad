//! The names of a specification.

ghost use Rattle.std.specs.Prelude.{◌≡◌, ◌++◌, None, IfOk, IfErr, OnOk};
ghost use Rattle.scope_rules.specs.declared.refusal.Breach.{Breach};
ghost use Rattle.scope_rules.specs.Least.{Refuses};
ghost use Rattle.scope_rules.specs.Scopes.{start};
ghost use Rattle.scope_rules.specs.NameRules as rules;
ghost use Rattle.scope_rules.specs.NamesInUse.{IsComplete};
ghost use Rattle.scope_names.specs.Noted.{least};

use crate::judge::judge;
use crate::table::Table;
use estelle_tree::{Items, Names, Sequence, Spec, Use};
use scope_names_events::events;
use scope_rules::{Breach, Event, Refusal, noted};
use std::alloc::{AllocError, Global};

/// What all events break, and what their names mean.
fn scan(alloc: Global, events: &[Event]) -> Result<(Items<Use>, Option<Breach>), AllocError>
    ensures names { IfOk result (λ r. r.0 ≡ rules.names_from start events.now) }
    ensures breach { IfOk result (λ r. r.1 ≡ least None start events.now) }
{
    let mut table = Table::new(alloc);
    let mut uses = Items::new(alloc);
    let mut first = None;
    for event in events {
        let breach = judge(&mut table, alloc, event, &mut uses)?;
        first = noted(first, breach);
    }
    Ok((uses, first))
}

/// For each name in use the name in its declaration, where none of the rules 1 to 5 is broken; else the least of
/// these rules that is broken, with the first node in the text that breaks it.
pub fn resolve(alloc: Global, spec: &Spec) -> Result<Names, Refusal>
    ensures names { IfOk result (λ names. names.uses ≡ rules.names_of spec.now) }
    // Behind a dot, too, no name is left without its declaration.
    ensures complete { IfOk result (λ names. IsComplete spec.now names.uses) }
    ensures kept { OnOk result ((b : Breach) → ¬ (rules.NameRuleBroken spec.now b)) }
    ensures refused { IfErr result (Refuses (rules.NameRuleBroken spec.now)) }
{
    let events = events(alloc, spec)?;
    let (uses, first) = scan(alloc, events.items())?;
    match first {
        None => Ok(Names { uses }),
        Some(breach) => Err(Refusal::Rule {
            number: breach.number,
            span: breach.span,
        }),
    }
}
