//! What is asked of links.

ghost use Rattle.std.specs.Prelude.{◌≡◌};

use estelle_tree::{IpAddr, LinkKind};

/// What is asked of a link, by its kind and its ends.
pub trait LinkTest {
    ghost use Rattle.std.specs.Prelude.{Bool};
    ghost use Rattle.estelle_tree.specs.declared.link.Link.{Link};

    /// Whether a link passes.
    ghost passes: { Self → Link → Bool };

    /// Whether the link of this kind with these ends does.
    fn passes(&self, kind: LinkKind, first: &IpAddr, second: &IpAddr) -> bool
        ensures { result ≡ passes self.now (record { kind = kind; first = first.now; second = second.now }) };
}
