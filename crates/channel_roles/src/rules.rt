//! The rules, visit by visit.

ghost use Rattle.std.specs.Prelude.{◌≡◌, ◌||◌, ◌&&◌};
ghost use Rattle.channel_roles.specs.ChannelRules as spec;
ghost use Rattle.visit_rules.specs.Breaches.{noted_all};

use crate::points::{
    attach_not, is_internal, is_own_external, is_own_internal, join_not, point, receive_not,
    sends_not,
};
use crate::roles::{noted_groups, noted_ips};
use estelle_tree::{Clause, Ip, Sequence};
use module_table::ModuleTable;
use scope_rules::Breach;
use tree_visits::{Node, Within};
use visit_rules::{Rules, noted_where};

/// Whether the ends of a connection may not be connected where the statement stands.
fn are_wrong_ends(table: &ModuleTable, first: &Ip, second: &Ip) -> bool
    ensures { result ≡ (spec.is_own_external table.now first.now || (spec.is_own_external table.now second.now || (spec.is_own_internal table.now first.now && spec.is_own_internal table.now second.now))) }
{
    is_own_external(table, first)
        || (is_own_external(table, second)
            || (is_own_internal(table, first) && is_own_internal(table, second)))
}

fn noted_when(table: &ModuleTable, clause: &Clause, first: Option<Breach>) -> Option<Breach>
    ensures { result ≡ noted_all first (spec.unreceived table.now clause.now) }
{
    match clause {
        Clause::When {
            ip,
            interaction,
            params,
            ..
        } => noted_where(
            receive_not(table, ip, interaction, params),
            22,
            ip.span,
            first,
        ),
        _ => first,
    }
}

/// The rules 20 to 25.
#[derive(Clone, Copy)]
pub struct ChannelRules<'t> {
    pub table: &'t ModuleTable,
}

impl<'t> Rules for ChannelRules<'t> {
    ghost breaches = { λ rules. spec.breaches rules.table.now };

    fn judge(&self, _within: &Within, node: &Node, first: Option<Breach>) -> Option<Breach> {
        let table = self.table;
        match node {
            Node::Channel(channel) => noted_groups(table, channel.groups.items(), first),
            Node::Header(header) => noted_ips(table, header.ips.items(), first),
            Node::Ips { ips } => noted_ips(table, ips, first),
            Node::Outputs {
                ip,
                interaction,
                ..
            } => noted_where(sends_not(table, ip, interaction), 21, ip.span, first),
            Node::ClauseBegins(clause) => noted_when(table, clause, first),
            Node::Connects {
                first: one,
                second,
                ..
            } => {
                let joined = join_not(point(table, one), point(table, second));
                let first = noted_where(joined, 23, one.span, first);
                noted_where(are_wrong_ends(table, one, second), 24, one.span, first)
            }
            Node::Disconnects { ip, .. } => {
                noted_where(is_own_external(table, ip), 24, ip.span, first)
            }
            Node::Attaches { own, ip, .. } => {
                let upper = table.ip_of(own);
                let broken = is_internal(upper) || attach_not(upper, table.ip_of(ip));
                noted_where(broken, 25, own.span, first)
            }
            Node::Detaches { own, .. } => {
                noted_where(is_internal(table.ip_of(own)), 25, own.span, first)
            }
            _ => first,
        }
    }
}
