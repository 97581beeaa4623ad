//! What attributes are.

ghost use Rattle.std.specs.Prelude.{◌≡◌};
ghost use Rattle.attribute_rules.specs.AttributeRules as spec;
ghost use Rattle.tree_visits.specs.Nodes.{around};

use estelle_tree::{Attr, SysAttr};
use module_table::ModuleTable;
use tree_visits::Within;

/// The attribute of the specification or body that a node stands in.
pub fn attribute_around(table: &ModuleTable, within: &Within) -> Option<Attr>
    ensures { result ≡ spec.attribute_around table.now (around within.now) }
{
    match within.header {
        Some(header) => table.attribute_of(header),
        None => match within.attr {
            None => None,
            Some(attr) => Some(Attr::SysAttr(attr)),
        },
    }
}

pub fn is_system(attribute: Option<Attr>) -> bool
    ensures { result ≡ spec.is_system attribute }
{
    match attribute {
        Some(Attr::SysAttr(_)) => true,
        _ => false,
    }
}

pub fn is_process(attribute: Option<Attr>) -> bool
    ensures { result ≡ spec.is_process attribute }
{
    match attribute {
        Some(Attr::Process { .. }) => true,
        _ => false,
    }
}

/// Whether it is `process` or `activity`.
pub fn is_inner(attribute: Option<Attr>) -> bool
    ensures { result ≡ spec.is_inner attribute }
{
    match attribute {
        Some(Attr::Process { .. } | Attr::Activity { .. }) => true,
        _ => false,
    }
}

/// Whether it is `systemactivity` or `activity`.
pub fn is_activity(attribute: Option<Attr>) -> bool
    ensures { result ≡ spec.is_activity attribute }
{
    match attribute {
        Some(Attr::SysAttr(SysAttr::Systemactivity { .. })) => true,
        Some(Attr::Activity { .. }) => true,
        _ => false,
    }
}
