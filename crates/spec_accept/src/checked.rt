//! A specification of which no rule is broken.

ghost use Rattle.std.specs.Prelude.{◌≡◌};
ghost use Rattle.scope_rules.specs.declared.refusal.Breach.{Breach};
ghost use Rattle.scope_rules.specs.NameRules.{names_of};
ghost use Rattle.spec_accept.specs.Rules.{IsSpelled, RuleBroken};

use estelle_tree::{Names, Spec};

/// A specification that was read, of which none of the rules is broken, with what its names mean.
pub struct Checked {
    pub spec: Spec,
    pub names: Names,
    pub ghost spelled: { ∥ IsSpelled spec ∥₁ },
    pub ghost named: { names.uses ≡ names_of spec },
    pub ghost kept: { (b : Breach) → ¬ (RuleBroken spec b) },
}

impl Drop for Checked {
    fn drop(self) {
        let Checked { spec: _, names: _ } = self;
    }
}
