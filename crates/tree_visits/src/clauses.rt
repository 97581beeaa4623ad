//! Blocks, and clauses before them.

ghost use Rattle.std.specs.Prelude.{◌≡◌, OnOk};
ghost use Rattle.std.specs.List.{flat_map};
ghost use Rattle.tree_visits.specs.Nodes.{around};
ghost use Rattle.tree_visits.specs.Taking.{after_visits, after_nodes};
ghost use Rattle.tree_visits.specs.Visits as spec;

use crate::node::{Node, Within};
use crate::statements::defined;
use crate::visitor::Visitor;
use estelle_tree::{Block, Clause, Group, Init, Sequence, Trans, TransBody};
use std::alloc::AllocError;

fn block<V: Visitor>(block: &Block, within: &Within, visitor: &mut V) -> Result<(), AllocError>
    ensures { OnOk result (visitor.new ≡ after_nodes V.step (around within.now) visitor.old (spec.block block.now)) }
{
    visitor.see(within, &Node::BlockBegins(block))?;
    defined(block.decls.items(), &block.body, within, visitor)
}

/// What a clause holds for stands in the same, and in the clause.
fn behind<'a>(within: &Within<'a>, clause: &Clause) -> Within<'a>
    ensures { around result ≡ spec.behind (around within.now) clause.now }
{
    match clause {
        Clause::When { .. } => Within {
            received: true,
            ..*within
        },
        Clause::Delay { .. } => Within {
            delayed: true,
            ..*within
        },
        _ => *within,
    }
}

#[cycle(groups)]
fn trans_body<V: Visitor>(
    body: &TransBody,
    within: &Within,
    visitor: &mut V,
) -> Result<(), AllocError>
    ensures { OnOk result (visitor.new ≡ after_visits V.step visitor.old (spec.trans_body body.now (around within.now))) }
{
    match body {
        TransBody::Block(inner) => block(inner, within, visitor),
        TransBody::Groups { groups: inner, .. } => groups(inner.items(), within, visitor),
    }
}

#[cycle(groups)]
fn groups<V: Visitor>(groups: &[Group], within: &Within, visitor: &mut V) -> Result<(), AllocError>
    ensures { OnOk result (visitor.new ≡ after_visits V.step visitor.old (flat_map (λ g. spec.group g (around within.now)) groups.now)) }
{
    for inner in groups {
        group(inner, within, visitor)?;
    }
    Ok(())
}

#[cycle(groups)]
fn group<V: Visitor>(group: &Group, within: &Within, visitor: &mut V) -> Result<(), AllocError>
    ensures { OnOk result (visitor.new ≡ after_visits V.step visitor.old (spec.group group.now (around within.now))) }
{
    visitor.see(within, &Node::ClauseBegins(&group.clause))?;
    let inside = behind(within, &group.clause);
    trans_body(&group.body, &inside, visitor)
}

/// An `initialize`, where one stands.
pub fn init<V: Visitor>(
    init: &Option<Init>,
    within: &Within,
    visitor: &mut V,
) -> Result<(), AllocError>
    ensures { OnOk result (visitor.new ≡ after_nodes V.step (around within.now) visitor.old (spec.init_nodes init.now)) }
{
    match init {
        None => Ok(()),
        Some(init) => {
            visitor.see(within, &Node::Initializes(init))?;
            block(&init.block, within, visitor)
        }
    }
}

/// The transitions under one word `trans`.
pub fn trans<V: Visitor>(trans: &Trans, within: &Within, visitor: &mut V) -> Result<(), AllocError>
    ensures { OnOk result (visitor.new ≡ after_visits V.step visitor.old (spec.trans (around within.now) trans.now)) }
{
    let span = trans.span;
    visitor.see(within, &Node::Transitions { span })?;
    trans_body(&trans.body, within, visitor)
}
