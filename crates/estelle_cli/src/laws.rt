//! Laws of the answers. These functions do nothing: their contracts are the laws.

ghost use Rattle.std.specs.Prelude.{◌≡◌, ℕ, List};
ghost use Rattle.estelle_cli.specs.declared.outcome.Refusal.{Refusal};
ghost use Rattle.estelle_cli.specs.declared.contents.Contents.{Contents};
ghost use Rattle.estelle_cli.specs.Input.{Refuses};

/// An input is refused for one reason at most, and at one place.
pub fn one_refusal()
    ensures { (contents : Contents) (input : List ℕ) (first second : Refusal) → Refuses contents first input → Refuses contents second input
        → first ≡ second }
{}
