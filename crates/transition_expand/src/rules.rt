//! The rules, visit by visit.

ghost use Rattle.std.specs.Prelude.{◌≡◌};
ghost use Rattle.flat_transitions.specs.Flat.{with_chosen};
ghost use Rattle.transition_expand.specs.TransitionRules as spec;

use crate::clauses::noted_clause;
use crate::domains::Domains;
use estelle_tree::Trans;
use flat_transitions::count;
use meaning_table::Table as Meanings;
use scope_rules::Breach;
use tree_visits::{Node, Within};
use visit_rules::{Rules, noted_where};

/// Whether there are more flat transitions than a body may have.
fn are_too_many(meanings: &Meanings, trans: &[Trans]) -> bool
    ensures { result ≡ spec.are_too_many (with_chosen meanings.now) trans.now }
{
    count(meanings, trans) > 4096
}

/// The rules 30 to 33.
#[derive(Clone, Copy)]
pub struct TransitionRules<'t, 'a> {
    pub domains: &'t Domains<'t>,
    pub meanings: &'t Meanings<'a>,
}

impl<'t, 'a> Rules for TransitionRules<'t, 'a> {
    ghost use Rattle.flat_transitions.specs.Flat.{with_chosen};
    ghost use Rattle.transition_expand.specs.TransitionRules as spec;

    ghost breaches = { λ rules. spec.breaches rules.domains.now (with_chosen rules.meanings.now) };

    fn judge(&self, within: &Within, node: &Node, first: Option<Breach>) -> Option<Breach> {
        match node {
            Node::Begins { trans, .. } => {
                noted_where(are_too_many(self.meanings, trans), 33, within.span, first)
            }
            Node::ClauseBegins(clause) => noted_clause(self.domains, within, clause, first),
            _ => first,
        }
    }
}
