//! What the parsers read, as laws: no code calls these.

ghost use Rattle.std.specs.Prelude.{◌≡◌, ◌⊎◌, ℕ, List};
ghost use Rattle.estelle_tree.specs.declared.token.Placed.{Placed};
ghost use Rattle.estelle_tree.specs.declared.tree.specification.Spec.{Spec};
ghost use Rattle.estelle_tree.specs.Spells.{Spells};
ghost use Rattle.estelle_parser.specs.Answers.{AreTokens, IsFirstRefused};

/// At most one tree spells a list of tokens.
pub fn one_tree()
    ensures { (one other : Spec) (tokens : List Placed) → Spells one tokens → Spells other tokens → one ≡ other }
{}

/// A tree spells a list of tokens, or none does, and then it is refused at one place.
pub fn tree_or_place()
    ensures either { (tokens : List Placed) → AreTokens tokens
        → ((found : Spec) × Spells found tokens) ⊎ (((found : Spec) → Spells found tokens → ⊥) × ((n : ℕ) × IsFirstRefused tokens n)) }
    ensures one { (tokens : List Placed) (m n : ℕ) → IsFirstRefused tokens m → IsFirstRefused tokens n → m ≡ n }
{}
