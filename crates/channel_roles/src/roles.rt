//! Roles that are none of their channel's two.

ghost use Rattle.std.specs.Prelude.{◌≡◌};
ghost use Rattle.std.specs.List.{flat_map};
ghost use Rattle.channel_roles.specs.ChannelRules as spec;
ghost use Rattle.visit_rules.specs.Breaches.{noted_all};

use estelle_tree::{InterGroup, IpDecl, Name, Sequence};
use module_table::ModuleTable;
use scope_rules::Breach;
use visit_rules::noted_where;

fn noted_role(table: &ModuleTable, role: &Name, first: Option<Breach>) -> Option<Breach>
    ensures { result ≡ noted_all first (spec.unknown_role table.now role.now) }
{
    noted_where(table.declaration_of(role).is_none(), 20, role.span, first)
}

fn noted_roles(table: &ModuleTable, roles: &[Name], first: Option<Breach>) -> Option<Breach>
    ensures { result ≡ noted_all first (flat_map (spec.unknown_role table.now) roles.now) }
{
    let mut all = first;
    for role in roles {
        all = noted_role(table, role, all);
    }
    all
}

/// The roles at each `by` of a channel.
pub fn noted_groups(
    table: &ModuleTable,
    groups: &[InterGroup],
    first: Option<Breach>,
) -> Option<Breach>
    ensures { result ≡ noted_all first (flat_map (spec.group_roles table.now) groups.now) }
{
    let mut all = first;
    for group in groups {
        all = noted_roles(table, group.roles.names.items(), all);
    }
    all
}

/// The roles of interaction points.
pub fn noted_ips(table: &ModuleTable, ips: &[IpDecl], first: Option<Breach>) -> Option<Breach>
    ensures { result ≡ noted_all first (flat_map (spec.ip_role table.now) ips.now) }
{
    let mut all = first;
    for ip in ips {
        all = noted_role(table, &ip.role, all);
    }
    all
}
