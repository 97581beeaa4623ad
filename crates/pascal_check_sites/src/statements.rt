//! Statements in one another.

ghost use Rattle.std.specs.Prelude.{◌≡◌, [], ◌++◌, map, OnOk};
ghost use Rattle.std.specs.List.{flat_map};
ghost use Rattle.type_rules.specs.StatementSites as spec;

use crate::expressions::expr;
use crate::labels::{LabelValues, labels};
use crate::simple::{assignment, counting, estelle_call, estelle_statement, procedure_call};
use crate::wanted::condition;
use declaration_table::Table;
use estelle_tree::{Case, Items, Sequence, Stmt, Stmts};
use std::alloc::{AllocError, Global};
use type_rules::{PascalType, Site};

/// A statement, with those in it.
#[cycle(statements)]
fn stmt(table: &Table, alloc: Global, node: &Stmt, out: &mut Items<Site>) -> Result<(), AllocError>
    ensures { OnOk result (out.new ≡ out.old ++ spec.stmt table.now node.now) }
{
    match node {
        Stmt::Empty => Ok(()),
        Stmt::Assign {
            variable,
            value,
            span,
        } => assignment(table, *span, variable, value, out),
        Stmt::Call { name, args, span } => procedure_call(table, *span, name, args, out),
        Stmt::Begin { stmts: inner, .. } => stmts(table, alloc, inner, out),
        Stmt::If {
            condition: test,
            then_part,
            else_part,
            ..
        } => {
            condition(table, test, out)?;
            stmt(table, alloc, then_part.get(), out)?;
            match else_part {
                None => Ok(()),
                Some(else_part) => stmt(table, alloc, else_part.get(), out),
            }
        }
        Stmt::While {
            condition: test,
            body,
            ..
        } => {
            condition(table, test, out)?;
            stmt(table, alloc, body.get(), out)
        }
        Stmt::Repeat {
            stmts: inner,
            condition: test,
            ..
        } => {
            stmts(table, alloc, inner, out)?;
            condition(table, test, out)
        }
        Stmt::Count {
            variable,
            first,
            last,
            body,
            span,
            ..
        } => {
            counting(table, *span, variable, first, last, out)?;
            stmt(table, alloc, body.get(), out)
        }
        Stmt::Case {
            selector,
            cases,
            ..
        } => {
            let selector = expr(table, selector, out)?;
            alternatives(table, alloc, selector.type_, cases.items(), out)
        }
        Stmt::Init {
            body,
            args,
            span,
            ..
        } => estelle_call(table, *span, body, args, out),
        Stmt::Release { span, .. } => estelle_statement(*span, out),
        Stmt::Connect { span, .. } => estelle_statement(*span, out),
        Stmt::Disconnect { span, .. } => estelle_statement(*span, out),
        Stmt::Attach { span, .. } => estelle_statement(*span, out),
        Stmt::Detach { span, .. } => estelle_statement(*span, out),
        Stmt::Output {
            interaction,
            args,
            span,
            ..
        } => estelle_call(table, *span, interaction, args, out),
    }
}

/// Statements, one after another.
#[cycle(statements)]
pub fn stmts(
    table: &Table,
    alloc: Global,
    node: &Stmts,
    out: &mut Items<Site>,
) -> Result<(), AllocError>
    ensures { OnOk result (out.new ≡ out.old ++ spec.stmts table.now node.now) }
{
    for inner in node.stmts.items() {
        stmt(table, alloc, inner, out)?;
    }
    Ok(())
}

/// The cases of a `case` whose selector has this type, each with its labels.
#[cycle(statements)]
fn alternatives(
    table: &Table,
    alloc: Global,
    selector: Option<PascalType>,
    cases: &[Case],
    out: &mut Items<Site>,
) -> Result<(), AllocError>
    ensures { OnOk result (out.new ≡ out.old ++ spec.alternatives table.now selector [] (map (spec.case_ table.now) cases.now)) }
{
    let mut values = LabelValues::new(alloc);
    for case in cases {
        labels(table, selector, case.labels.items(), &mut values, out)?;
        stmt(table, alloc, &case.body, out)?;
    }
    Ok(())
}
