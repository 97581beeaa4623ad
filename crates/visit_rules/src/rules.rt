//! Tables of rules.

ghost use Rattle.std.specs.Prelude.{◌≡◌};
ghost use Rattle.tree_visits.specs.Nodes.{visit};
ghost use Rattle.visit_rules.specs.Breaches.{noted_all};

use scope_rules::Breach;
use tree_visits::{Node, Within};

/// Rules that speak of one visit each.
pub trait Rules {
    ghost use Rattle.visit_rules.specs.Breaches.{Rules};

    /// What each visit breaks.
    ghost breaches: { Self → Rules };

    /// The breach that is reported of an earlier one and of what this visit breaks.
    fn judge(&self, within: &Within, node: &Node, first: Option<Breach>) -> Option<Breach>
        ensures { result ≡ noted_all first (breaches self.now (visit within.now node.now)) };
}
