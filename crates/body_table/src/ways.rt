//! The blocks of a body.

ghost use Rattle.std.specs.Prelude.{◌≡◌, ◌++◌, [], map, option_to_list, IfOk, OnOk};
ghost use Rattle.std.specs.List.{flat_map};
ghost use Rattle.estelle_model.specs.Definitions.{interaction_of, clause_declares, block_declares};
ghost use Rattle.estelle_model.specs.Bodies.{ways, clauses};
ghost use Rattle.meaning_table.specs.Known.{declare_all};
ghost use Rattle.body_table.specs.Standings.{blocks_declare};
ghost use Rattle.body_table.specs.Ways.{group_ways, group_clauses, way_declares};

use crate::blocks::{declare_block, declare_clause};
use estelle_tree::{Clause, Group, Init, Items, Name, Sequence, Trans, TransBody};
use meaning_table::Table;
use std::alloc::{AllocError, Global};

#[cycle(clauses)]
fn declare_clauses(table: &mut Table, body: &TransBody) -> Result<(), AllocError>
    ensures { OnOk result (table.new ≡ declare_all table.old (flat_map clause_declares (clauses body.now))) }
{
    match body {
        TransBody::Block(_) => Ok(()),
        TransBody::Groups { groups, .. } => declare_group_clauses(table, groups.items()),
    }
}

#[cycle(clauses)]
fn declare_group_clauses(table: &mut Table, groups: &[Group]) -> Result<(), AllocError>
    ensures { OnOk result (table.new ≡ declare_all table.old (flat_map (λ g. flat_map clause_declares (group_clauses g)) groups.now)) }
{
    for group in groups {
        declare_group_clause(table, group)?;
    }
    Ok(())
}

#[cycle(clauses)]
fn declare_group_clause(table: &mut Table, group: &Group) -> Result<(), AllocError>
    ensures { OnOk result (table.new ≡ declare_all table.old (flat_map clause_declares (group_clauses group.now))) }
{
    declare_clause(table, &group.clause)?;
    declare_clauses(table, &group.body)
}

/// The interactions that are received under one more clause.
fn received<'t>(
    alloc: Global,
    interactions: &[&'t Name],
    clause: &'t Clause,
) -> Result<Items<&'t Name>, AllocError>
    ensures { IfOk result (λ all. map (λ x. x.now) all ≡ map (λ x. x.now) interactions.now ++ interaction_of clause.now) }
{
    let mut all = Items::from_slice(alloc, interactions)?;
    if let Clause::When { interaction, .. } = clause {
        all.push(interaction)?;
    }
    Ok(all)
}

#[cycle(ways)]
fn declare_ways<'t>(
    table: &mut Table,
    interactions: &[&'t Name],
    body: &'t TransBody,
) -> Result<(), AllocError>
    ensures { OnOk result (table.new ≡ declare_all table.old (flat_map (way_declares (map (λ x. x.now) interactions.now)) (ways body.now))) }
{
    match body {
        TransBody::Block(block) => declare_block(table, interactions, block),
        TransBody::Groups { groups, .. } => declare_groups(table, interactions, groups.items()),
    }
}

#[cycle(ways)]
fn declare_groups<'t>(
    table: &mut Table,
    interactions: &[&'t Name],
    groups: &'t [Group],
) -> Result<(), AllocError>
    ensures { OnOk result (table.new ≡ declare_all table.old (flat_map (λ g. flat_map (way_declares (map (λ x. x.now) interactions.now)) (group_ways g)) groups.now)) }
{
    for group in groups {
        declare_group(table, interactions, group)?;
    }
    Ok(())
}

#[cycle(ways)]
fn declare_group<'t>(
    table: &mut Table,
    interactions: &[&'t Name],
    group: &'t Group,
) -> Result<(), AllocError>
    ensures { OnOk result (table.new ≡ declare_all table.old (flat_map (way_declares (map (λ x. x.now) interactions.now)) (group_ways group.now))) }
{
    let all = received(table.alloc, interactions, &group.clause)?;
    declare_ways(table, all.items(), &group.body)
}

fn declare_init(table: &mut Table, init: &Option<Init>) -> Result<(), AllocError>
    ensures { OnOk result (table.new ≡ declare_all table.old (flat_map (λ i. block_declares [] i.block) (option_to_list init.now))) }
{
    match init {
        None => Ok(()),
        Some(init) => declare_block(table, &[], &init.block),
    }
}

fn declare_all_clauses(table: &mut Table, transitions: &[Trans]) -> Result<(), AllocError>
    ensures { OnOk result (table.new ≡ declare_all table.old (flat_map (λ t. flat_map clause_declares (clauses t.body)) transitions.now)) }
{
    for trans in transitions {
        declare_clauses(table, &trans.body)?;
    }
    Ok(())
}

fn declare_all_ways(table: &mut Table, transitions: &[Trans]) -> Result<(), AllocError>
    ensures { OnOk result (table.new ≡ declare_all table.old (flat_map (λ t. flat_map (way_declares []) (ways t.body)) transitions.now)) }
{
    for trans in transitions {
        declare_ways(table, &[], &trans.body)?;
    }
    Ok(())
}

/// What the blocks of a body declare, and the clauses before them.
pub fn declare_blocks(
    table: &mut Table,
    init: &Option<Init>,
    transitions: &[Trans],
) -> Result<(), AllocError>
    ensures { OnOk result (table.new ≡ declare_all table.old (blocks_declare init.now transitions.now)) }
{
    declare_init(table, init)?;
    declare_all_clauses(table, transitions)?;
    declare_all_ways(table, transitions)
}
