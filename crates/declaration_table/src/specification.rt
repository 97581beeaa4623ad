//! Clauses, channels, headers, bodies and specifications.

ghost use Rattle.std.specs.Prelude.{◌≡◌, map, OnOk, IfOk};
ghost use Rattle.std.specs.List.{flat_map};
ghost use Rattle.type_rules.specs.Meanings.{declare_one, declare_all};
ghost use Rattle.type_rules.specs.TypeSites.{ordinal_declares};
ghost use Rattle.type_rules.specs.SpecificationSites as spec;

use crate::definitions::{declare_params, declare_routine, value_parameters};
use crate::node::{Node, chain};
use crate::table::Table;
use crate::types::declare_ordinal;
use estelle_tree::{
    AnyDom, Block, Body, Channel, Clause, Decl, Group, Header, Init, Inter, InterGroup, IpDecl,
    ModvarDecl, Name, Names, Parts, Sequence, Span, Spec, Trans, TransBody,
};
use std::alloc::{AllocError, Global};
use type_rules::{Entity, Meaning, host_in};

fn declare_domains(table: &mut Table, domains: &[AnyDom]) -> Result<(), AllocError>
    ensures { OnOk result (table.new ≡ declare_all table.old (flat_map (λ x. ordinal_declares x.domain) domains.now)) }
{
    for any in domains {
        declare_ordinal(table, &any.domain)?;
    }
    Ok(())
}

/// The names of one domain of `any`.
fn declare_chosen(table: &mut Table, any: &AnyDom) -> Result<(), AllocError>
    ensures { OnOk result (table.new ≡ declare_all table.old (spec.chosen any.now)) }
{
    for name in any.names.names.items() {
        let host = host_in(table.ordinal_type(&any.domain).type_);
        table.declare_as(name.span.start, Meaning::Constant { host, value: None })?;
    }
    Ok(())
}

impl Node for AnyDom {
    ghost declares = { spec.chosen };

    fn declare(&self, table: &mut Table) -> Result<(), AllocError> {
        declare_chosen(table, self)
    }
}

impl Node for Clause {
    ghost declares = { λ x. (spec.clause_part x).declares };

    fn declare(&self, table: &mut Table) -> Result<(), AllocError> {
        match self {
            Clause::Any { domains, .. } => {
                declare_domains(table, domains.items())?;
                chain(domains.items(), table)
            }
            _ => Ok(()),
        }
    }
}

impl Node for Block {
    ghost declares = { λ x. (spec.block x).declares };

    fn declare(&self, table: &mut Table) -> Result<(), AllocError> {
        chain(self.decls.items(), table)
    }
}

#[cycle(groups)]
fn declare_trans_body(body: &TransBody, table: &mut Table) -> Result<(), AllocError>
    ensures { OnOk result (table.new ≡ declare_all table.old (spec.trans_body body.now).declares) }
{
    match body {
        TransBody::Block(block) => block.declare(table),
        TransBody::Groups { groups, .. } => declare_groups(groups.items(), table),
    }
}

#[cycle(groups)]
fn declare_groups(groups: &[Group], table: &mut Table) -> Result<(), AllocError>
    ensures { OnOk result (table.new ≡ declare_all table.old (flat_map (λ g. (spec.group g).declares) groups.now)) }
{
    for group in groups {
        declare_group(group, table)?;
    }
    Ok(())
}

#[cycle(groups)]
fn declare_group(group: &Group, table: &mut Table) -> Result<(), AllocError>
    ensures { OnOk result (table.new ≡ declare_all table.old (spec.group group.now).declares) }
{
    group.clause.declare(table)?;
    declare_trans_body(&group.body, table)
}

impl Node for Trans {
    ghost declares = { λ x. (spec.trans_body x.body).declares };

    fn declare(&self, table: &mut Table) -> Result<(), AllocError> {
        declare_trans_body(&self.body, table)
    }
}

impl Node for Inter {
    ghost declares = { spec.inter };

    fn declare(&self, table: &mut Table) -> Result<(), AllocError> {
        let parameters = value_parameters(table, &self.params)?;
        table.declare(
            self.name.span.start,
            Entity {
                meaning: Meaning::Interaction,
                parameters,
            },
        )?;
        declare_params(table, &self.params)
    }
}

impl Node for InterGroup {
    ghost declares = { spec.inter_group };

    fn declare(&self, table: &mut Table) -> Result<(), AllocError> {
        chain(self.inters.items(), table)
    }
}

impl Node for Channel {
    ghost declares = { spec.channel };

    fn declare(&self, table: &mut Table) -> Result<(), AllocError> {
        chain(self.groups.items(), table)
    }
}

/// Names with one meaning.
fn declare_each(table: &mut Table, names: &[Name], meaning: Meaning) -> Result<(), AllocError>
    ensures { OnOk result (table.new ≡ declare_all table.old (map (spec.declare_as (λ env. meaning)) names.now)) }
{
    for name in names {
        table.declare_as(name.span.start, meaning)?;
    }
    Ok(())
}

impl Node for IpDecl {
    ghost declares = { spec.ip_decl };

    fn declare(&self, table: &mut Table) -> Result<(), AllocError> {
        declare_each(table, self.names.names.items(), Meaning::Ip)
    }
}

impl Node for ModvarDecl {
    ghost declares = { spec.modvar_decl };

    fn declare(&self, table: &mut Table) -> Result<(), AllocError> {
        declare_each(table, self.names.names.items(), Meaning::ModuleVariable)
    }
}

impl Node for Header {
    ghost declares = { λ x. (spec.header x).declares };

    fn declare(&self, table: &mut Table) -> Result<(), AllocError> {
        let parameters = value_parameters(table, &self.params)?;
        table.declare(
            self.name.span.start,
            Entity {
                meaning: Meaning::Header,
                parameters,
            },
        )?;
        declare_params(table, &self.params)?;
        chain(self.ips.items(), table)?;
        chain(self.exports.items(), table)
    }
}

fn declare_init(init: &Option<Init>, table: &mut Table) -> Result<(), AllocError>
    ensures { OnOk result (table.new ≡ declare_all table.old (spec.init_part init.now).declares) }
{
    match init {
        None => Ok(()),
        Some(init) => init.block.declare(table),
    }
}

fn place_or_none(decl: Option<Span>) -> u32
    ensures { result ≡ spec.place_or_none decl }
{
    match decl {
        None => 0,
        Some(decl) => decl.start,
    }
}

/// The name of a body.
fn declare_body_name(table: &mut Table, name: &Name, header: &Name) -> Result<(), AllocError>
    ensures { OnOk result (table.new ≡ declare_one table.old (spec.body_name name.now header.now)) }
{
    let header = place_or_none(table.declaration_of(header));
    table.declare_as(name.span.start, Meaning::Body { header })
}

#[cycle(bodies)]
fn declare_parts(parts: &Parts, at: u32, table: &mut Table) -> Result<(), AllocError>
    ensures { OnOk result (table.new ≡ declare_all table.old ((spec.parts parts.now).declares at)) }
{
    declare_decls(parts.decls.items(), at, table)?;
    declare_init(&parts.init, table)?;
    chain(parts.trans.items(), table)
}

#[cycle(bodies)]
fn declare_decls(decls: &[Decl], at: u32, table: &mut Table) -> Result<(), AllocError>
    ensures { OnOk result (table.new ≡ declare_all table.old (flat_map (λ d. (spec.decl d).declares at) decls.now)) }
{
    for decl in decls {
        declare_decl(decl, at, table)?;
    }
    Ok(())
}

#[cycle(bodies)]
fn declare_decl(decl: &Decl, at: u32, table: &mut Table) -> Result<(), AllocError>
    ensures { OnOk result (table.new ≡ declare_all table.old ((spec.decl decl.now).declares at)) }
{
    match decl {
        Decl::Const { defs, .. } => chain(defs.items(), table),
        Decl::Types { defs, .. } => chain(defs.items(), table),
        Decl::Channel(channel) => channel.declare(table),
        Decl::Header(header) => header.declare(table),
        Decl::Body(body) => declare_body(body, at, table),
        Decl::Ip { ips, .. } => chain(ips.items(), table),
        Decl::Modvar { modvars, .. } => chain(modvars.items(), table),
        Decl::Var { vars, .. } => chain(vars.items(), table),
        Decl::State { .. } | Decl::Stateset { .. } => Ok(()),
        Decl::Routine(routine) => declare_routine(table, routine, at),
    }
}

#[cycle(bodies)]
fn declare_body(body: &Body, at: u32, table: &mut Table) -> Result<(), AllocError>
    ensures { OnOk result (table.new ≡ declare_all table.old ((spec.body body.now).declares at)) }
{
    declare_body_name(table, &body.name, &body.header)?;
    declare_parts(&body.parts, body.span.start, table)
}

/// What is known once all that a specification declares is declared.
#[tactic(auto, unfolding(type_rules::specs::SpecificationSites::env))]
pub fn declarations(alloc: Global, tree: &Spec, names: &Names) -> Result<Table, AllocError>
    ensures { IfOk result (λ table. table ≡ spec.env tree.now names.now) }
{
    let mut table = Table::new(alloc, names)?;
    declare_parts(&tree.parts, tree.span.start, &mut table)?;
    Ok(table)
}
