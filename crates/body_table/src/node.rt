//! Nodes of a tree, and lists of them.

ghost use Rattle.std.specs.Prelude.{◌≡◌, OnOk};
ghost use Rattle.std.specs.List.{flat_map};
ghost use Rattle.meaning_table.specs.Known.{declare_all};

use meaning_table::Table;
use std::alloc::AllocError;

/// What declares.
pub trait Node {
    ghost use Rattle.estelle_model.specs.Denoted.{Declarations};

    ghost declares: { Self → Declarations };

    /// Adds what it declares.
    fn declare(&self, table: &mut Table) -> Result<(), AllocError>
        ensures { OnOk result (table.new ≡ declare_all table.old (declares self.now)) };
}

/// One node after another.
pub fn chain<N: Node>(nodes: &[N], table: &mut Table) -> Result<(), AllocError>
    ensures { OnOk result (table.new ≡ declare_all table.old (flat_map N.declares nodes.now)) }
{
    for node in nodes {
        node.declare(table)?;
    }
    Ok(())
}
