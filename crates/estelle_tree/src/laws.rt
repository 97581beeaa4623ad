//! Laws of the grammar. These functions do nothing: their contracts are the laws.

ghost use Rattle.std.specs.Prelude.{ℕ, List};
ghost use Rattle.estelle_tree.specs.declared.token.Placed.{Placed};
ghost use Rattle.estelle_tree.specs.declared.tree.specification.Spec.{Spec};
ghost use Rattle.estelle_tree.specs.Spells.{Spells};
ghost use Rattle.estelle_tree.specs.BeginsSpecification.{Begins};

/// Every prefix of a sentence begins one.
pub fn prefixes_begin()
    ensures { (spec : Spec) (tokens : List Placed) (n : ℕ) → Spells spec tokens → Begins tokens n }
{}
