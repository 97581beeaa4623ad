//! Nodes of a tree, and lists of them.

ghost use Rattle.std.specs.Prelude.{◌≡◌, OnOk};
ghost use Rattle.std.specs.List.{flat_map};
ghost use Rattle.scope_rules.specs.ExpressionEvents.{optional};
ghost use Rattle.scope_names_events.specs.Writing.{write};

use crate::writer::Writer;
use std::alloc::AllocError;

/// What has events.
pub trait Node {
    ghost use Rattle.scope_rules.specs.TypeEvents.{Events};

    ghost events: { Self → Events };

    /// Adds its events.
    fn write(&self, out: &mut Writer) -> Result<(), AllocError>
        ensures { OnOk result (out.new ≡ write out.old (events self.now)) };
}

/// Those of a node that may be missing.
pub fn optional<N: Node>(node: &Option<N>, out: &mut Writer) -> Result<(), AllocError>
    ensures { OnOk result (out.new ≡ write out.old (optional N.events node.now)) }
{
    match node {
        Some(node) => node.write(out),
        None => Ok(()),
    }
}

/// Those of one node after another.
pub fn chain<N: Node>(nodes: &[N], out: &mut Writer) -> Result<(), AllocError>
    ensures { OnOk result (out.new ≡ write out.old (flat_map N.events nodes.now)) }
{
    for node in nodes {
        node.write(out)?;
    }
    Ok(())
}
