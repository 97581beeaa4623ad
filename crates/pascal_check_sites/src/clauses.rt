//! Clauses and what they hold for.

ghost use Rattle.std.specs.Prelude.{◌≡◌, ◌++◌, OnOk};
ghost use Rattle.std.specs.List.{flat_map};
ghost use Rattle.type_rules.specs.TypeSites as types;
ghost use Rattle.type_rules.specs.SpecificationSites as spec;

use crate::node::{Node, chain};
use crate::types::ordinal_sites;
use crate::wanted::{condition, wanting};
use declaration_table::Table;
use estelle_tree::{AnyDom, Clause, DelayHigh, Group, Items, Sequence, Trans, TransBody};
use std::alloc::AllocError;
use type_rules::{Site, Wanted};

impl Node for AnyDom {
    ghost sites = { λ env x. types.ordinal_sites env x.domain };

    fn add_sites(&self, table: &Table, out: &mut Items<Site>) -> Result<(), AllocError> {
        ordinal_sites(table, &self.domain, out)
    }
}

fn high_sites(
    table: &Table,
    high: &Option<DelayHigh>,
    out: &mut Items<Site>,
) -> Result<(), AllocError>
    ensures { OnOk result (out.new ≡ out.old ++ spec.high_sites table.now high.now) }
{
    match high {
        Some(DelayHigh::Expr(high)) => wanting(table, Wanted::AnInteger, high, out),
        _ => Ok(()),
    }
}

impl Node for Clause {
    ghost sites = { λ env x. (spec.clause_part x).sites env };

    fn add_sites(&self, table: &Table, out: &mut Items<Site>) -> Result<(), AllocError> {
        match self {
            Clause::Provided {
                condition: test,
                ..
            } => condition(table, test, out),
            Clause::Priority { value, .. } => out.push(Site::PriorityAt {
                at: value.span(),
                host: table.const_host(value),
            }),
            Clause::Any { domains, .. } => chain(domains.items(), table, out),
            Clause::Delay { low, high, .. } => {
                wanting(table, Wanted::AnInteger, low, out)?;
                high_sites(table, high, out)
            }
            Clause::From { .. } | Clause::To { .. } | Clause::When { .. } => Ok(()),
        }
    }
}

/// A block, or groups of clauses.
#[cycle(groups)]
fn trans_body(body: &TransBody, table: &Table, out: &mut Items<Site>) -> Result<(), AllocError>
    ensures { OnOk result (out.new ≡ out.old ++ (spec.trans_body body.now).sites table.now) }
{
    match body {
        TransBody::Block(block) => block.add_sites(table, out),
        TransBody::Groups { groups: inner, .. } => groups(inner.items(), table, out),
    }
}

#[cycle(groups)]
fn groups(groups: &[Group], table: &Table, out: &mut Items<Site>) -> Result<(), AllocError>
    ensures { OnOk result (out.new ≡ out.old ++ flat_map (λ g. (spec.group g).sites table.now) groups.now) }
{
    for inner in groups {
        group(inner, table, out)?;
    }
    Ok(())
}

#[cycle(groups)]
fn group(group: &Group, table: &Table, out: &mut Items<Site>) -> Result<(), AllocError>
    ensures { OnOk result (out.new ≡ out.old ++ (spec.group group.now).sites table.now) }
{
    group.clause.add_sites(table, out)?;
    trans_body(&group.body, table, out)
}

impl Node for Trans {
    ghost sites = { λ env x. (spec.trans_body x.body).sites env };

    fn add_sites(&self, table: &Table, out: &mut Items<Site>) -> Result<(), AllocError> {
        trans_body(&self.body, table, out)
    }
}
