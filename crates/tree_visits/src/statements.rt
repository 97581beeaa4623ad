//! Statements in one another, and definitions before them.

ghost use Rattle.std.specs.Prelude.{◌≡◌, ◌∷◌, [], map, OnOk};
ghost use Rattle.std.specs.List.{flat_map};
ghost use Rattle.tree_visits.specs.Nodes.{around};
ghost use Rattle.tree_visits.specs.Taking.{after_nodes};
ghost use Rattle.tree_visits.specs.Visits as spec;

use crate::node::{Node, Within};
use crate::visitor::Visitor;
use estelle_tree::{BlockDecl, Case, Sequence, Stmt, Stmts};
use std::alloc::AllocError;

/// A statement, with those in it.
#[cycle(statements)]
fn stmt<V: Visitor>(node: &Stmt, within: &Within, visitor: &mut V) -> Result<(), AllocError>
    ensures { OnOk result (visitor.new ≡ after_nodes V.step (around within.now) visitor.old (spec.stmt node.now)) }
{
    match node {
        Stmt::Empty => Ok(()),
        Stmt::Assign {
            variable,
            value,
            span,
        } => {
            let span = *span;
            visitor.see(
                within,
                &Node::Assigns {
                    variable,
                    value,
                    span,
                },
            )
        }
        Stmt::Call { name, args, span } => {
            let span = *span;
            visitor.see(within, &Node::Calls { name, args, span })
        }
        Stmt::Begin { stmts: inner, .. } => stmts(inner, within, visitor),
        Stmt::If {
            condition,
            then_part,
            else_part,
            ..
        } => {
            visitor.see(within, &Node::Tests { condition })?;
            stmt(then_part.get(), within, visitor)?;
            match else_part {
                None => Ok(()),
                Some(else_part) => stmt(else_part.get(), within, visitor),
            }
        }
        Stmt::While {
            condition,
            body,
            ..
        } => {
            visitor.see(within, &Node::Tests { condition })?;
            stmt(body.get(), within, visitor)
        }
        Stmt::Repeat {
            stmts: inner,
            condition,
            ..
        } => {
            stmts(inner, within, visitor)?;
            visitor.see(within, &Node::Tests { condition })
        }
        Stmt::Count {
            variable,
            first,
            last,
            body,
            span,
            ..
        } => {
            let span = *span;
            visitor.see(
                within,
                &Node::Counts {
                    variable,
                    first,
                    last,
                    span,
                },
            )?;
            stmt(body.get(), within, visitor)
        }
        Stmt::Case {
            selector,
            cases,
            ..
        } => {
            visitor.see(within, &Node::Selects { selector })?;
            alternatives(cases.items(), within, visitor)
        }
        Stmt::Init {
            modvar,
            body,
            args,
            span,
        } => {
            let span = *span;
            visitor.see(
                within,
                &Node::Inits {
                    modvar,
                    body,
                    args,
                    span,
                },
            )
        }
        Stmt::Release { modvar, span } => {
            let span = *span;
            visitor.see(within, &Node::Releases { modvar, span })
        }
        Stmt::Connect {
            first,
            second,
            span,
        } => {
            let span = *span;
            visitor.see(
                within,
                &Node::Connects {
                    first,
                    second,
                    span,
                },
            )
        }
        Stmt::Disconnect { ip, span } => {
            let span = *span;
            visitor.see(within, &Node::Disconnects { ip, span })
        }
        Stmt::Attach {
            own,
            modvar,
            ip,
            span,
        } => {
            let span = *span;
            visitor.see(
                within,
                &Node::Attaches {
                    own,
                    modvar,
                    ip,
                    span,
                },
            )
        }
        Stmt::Detach { own, span } => {
            let span = *span;
            visitor.see(within, &Node::Detaches { own, span })
        }
        Stmt::Output {
            ip,
            interaction,
            args,
            span,
        } => {
            let span = *span;
            visitor.see(
                within,
                &Node::Outputs {
                    ip,
                    interaction,
                    args,
                    span,
                },
            )
        }
    }
}

/// Statements, one after another.
#[cycle(statements)]
fn stmts<V: Visitor>(node: &Stmts, within: &Within, visitor: &mut V) -> Result<(), AllocError>
    ensures { OnOk result (visitor.new ≡ after_nodes V.step (around within.now) visitor.old (spec.stmts node.now)) }
{
    for inner in node.stmts.items() {
        stmt(inner, within, visitor)?;
    }
    Ok(())
}

#[cycle(statements)]
fn alternatives<V: Visitor>(
    cases: &[Case],
    within: &Within,
    visitor: &mut V,
) -> Result<(), AllocError>
    ensures { OnOk result (visitor.new ≡ after_nodes V.step (around within.now) visitor.old (flat_map spec.case_ cases.now)) }
{
    for case in cases {
        alternative(case, within, visitor)?;
    }
    Ok(())
}

#[cycle(statements)]
fn alternative<V: Visitor>(case: &Case, within: &Within, visitor: &mut V) -> Result<(), AllocError>
    ensures { OnOk result (visitor.new ≡ after_nodes V.step (around within.now) visitor.old (spec.case_ case.now)) }
{
    let labels = case.labels.items();
    visitor.see(within, &Node::Labels { labels })?;
    stmt(&case.body, within, visitor)
}

fn definition<V: Visitor>(
    decl: &BlockDecl,
    within: &Within,
    visitor: &mut V,
) -> Result<(), AllocError>
    ensures { OnOk result (visitor.new ≡ after_nodes V.step (around within.now) visitor.old (map spec.block_decl_node (decl.now ∷ []))) }
{
    match decl {
        BlockDecl::Const { defs, .. } => {
            let defs = defs.items();
            visitor.see(within, &Node::Constants { defs })
        }
        BlockDecl::Types { defs, .. } => {
            let defs = defs.items();
            visitor.see(within, &Node::Types { defs })
        }
        BlockDecl::Var { vars, .. } => {
            let vars = vars.items();
            visitor.see(within, &Node::Variables { vars })
        }
    }
}

fn definitions<V: Visitor>(
    decls: &[BlockDecl],
    within: &Within,
    visitor: &mut V,
) -> Result<(), AllocError>
    ensures { OnOk result (visitor.new ≡ after_nodes V.step (around within.now) visitor.old (map spec.block_decl_node decls.now)) }
{
    for decl in decls {
        definition(decl, within, visitor)?;
    }
    Ok(())
}

/// Definitions, and the statements behind them.
pub fn defined<V: Visitor>(
    decls: &[BlockDecl],
    body: &Stmts,
    within: &Within,
    visitor: &mut V,
) -> Result<(), AllocError>
    ensures { OnOk result (visitor.new ≡ after_nodes V.step (around within.now) visitor.old (spec.defined decls.now body.now)) }
{
    definitions(decls, within, visitor)?;
    stmts(body, within, visitor)
}
