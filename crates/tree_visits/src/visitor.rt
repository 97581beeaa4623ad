//! What sees the nodes of a tree.

ghost use Rattle.std.specs.Prelude.{◌≡◌, OnOk};
ghost use Rattle.tree_visits.specs.Nodes.{visit};

use crate::node::{Node, Within};
use std::alloc::AllocError;

/// What sees the nodes of a tree, one after another.
pub trait Visitor {
    ghost use Rattle.tree_visits.specs.Visit.{Visit};

    /// What it becomes by one visit.
    ghost step: { Self → Visit → Self };

    fn see(&mut self, within: &Within, node: &Node) -> Result<(), AllocError>
        ensures { OnOk result (self.new ≡ step self.old (visit within.now node.now)) };
}
