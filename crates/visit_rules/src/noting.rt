//! The breach that is reported of an earlier one and of more.

ghost use Rattle.std.specs.Prelude.{◌≡◌, ◌∷◌, []};
ghost use Rattle.scope_rules.specs.Least.{breach};
ghost use Rattle.visit_rules.specs.Breaches as spec;

use estelle_tree::{Name, Span};
use scope_rules::{Breach, noted};

/// With what a node breaks, where something is so.
pub fn noted_where(broken: bool, number: u8, span: Span, first: Option<Breach>) -> Option<Breach>
    ensures { result ≡ spec.noted_all first (spec.where_ broken (breach number span ∷ [])) }
{
    if broken {
        return noted(first, Some(Breach { number, span }));
    }
    first
}

/// With what each of these names breaks.
pub fn noted_each(number: u8, names: &[Name], first: Option<Breach>) -> Option<Breach>
    ensures { result ≡ spec.noted_all first (spec.breaches_at number names.now) }
{
    let mut all = first;
    for name in names {
        all = noted_where(true, number, name.span, all);
    }
    all
}
