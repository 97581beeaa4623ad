//! The least breach of a tree.

ghost use Rattle.std.specs.Prelude.{IfErr, IfOk, IfNone, IfSome, OnOk};
ghost use Rattle.scope_rules.specs.declared.refusal.Breach.{Breach};
ghost use Rattle.scope_rules.specs.Least.{IsLeast, Refuses};
ghost use Rattle.visit_rules.specs.Breaches.{Broken};

use crate::rules::Rules;
use estelle_tree::Spec;
use scope_rules::{Breach, Refusal};
use std::alloc::AllocError;
use tree_visits::{Node, Visitor, Within, walk};

/// The breach that is reported of what was visited so far.
#[derive(Drop)]
struct Judge<'r, R> {
    rules: &'r R,
    first: Option<Breach>,
}

impl<'r, R: Rules> Visitor for Judge<'r, R> {
    ghost use Rattle.visit_rules.specs.Breaches.{noted_all};

    ghost step = { λ s v. record { rules = s.rules; first = noted_all s.first (R.breaches s.rules.now v) } };

    fn see(&mut self, within: &Within, node: &Node) -> Result<(), AllocError> {
        self.first = self.rules.judge(within, node, self.first);
        Ok(())
    }
}

fn first_breach<R: Rules>(tree: &Spec, rules: &R) -> Result<Option<Breach>, AllocError>
    ensures kept { IfOk result (λ first. IfNone first ((b : Breach) → ¬ (Broken (R.breaches rules.now) tree.now b))) }
    ensures found { IfOk result (λ first. IfSome first (IsLeast (Broken (R.breaches rules.now) tree.now))) }
{
    let mut judge = Judge { rules, first: None };
    walk(tree, &mut judge)?;
    Ok(judge.first)
}

/// Nothing where no visit breaks one of these rules; else the least rule that is broken, with the first node in the text
/// that breaks it.
pub fn check<R: Rules>(tree: &Spec, rules: &R) -> Result<(), Refusal>
    ensures kept { OnOk result ((b : Breach) → ¬ (Broken (R.breaches rules.now) tree.now b)) }
    ensures refused { IfErr result (Refuses (Broken (R.breaches rules.now) tree.now)) }
{
    match first_breach(tree, rules) {
        Ok(None) => Ok(()),
        Ok(Some(breach)) => Err(Refusal::Rule {
            number: breach.number,
            span: breach.span,
        }),
        Err(_) => Err(Refusal::Memory),
    }
}
