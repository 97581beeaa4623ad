//! What statements and clauses ask of the expressions in them.

ghost use Rattle.std.specs.Prelude.{◌≡◌, ◌++◌, IfOk, OnOk};
ghost use Rattle.estelle_tree.specs.declared.tree.expression.Variable.{out-Variable};
ghost use Rattle.type_rules.specs.Meanings.{known};
ghost use Rattle.type_rules.specs.StatementSites as spec;

use crate::expressions::{arguments, expr, variable};
use crate::places::{call_of, want, want_fitting};
use declaration_table::Table;
use estelle_tree::{Args, Expr, Items, Name, Sequence, Variable};
use std::alloc::AllocError;
use type_rules::{Meaning, PascalType, Site, Wanted};

/// An expression whose place wants this of it.
pub fn wanting(
    table: &Table,
    wanted: Wanted,
    node: &Expr,
    out: &mut Items<Site>,
) -> Result<(), AllocError>
    ensures { OnOk result (out.new ≡ out.old ++ spec.wanting table.now wanted node.now) }
{
    let typed = expr(table, node, out)?;
    want(wanted, typed, out)
}

/// An expression that must be boolean.
pub fn condition(table: &Table, node: &Expr, out: &mut Items<Site>) -> Result<(), AllocError>
    ensures { OnOk result (out.new ≡ out.old ++ spec.condition table.now node.now) }
{
    wanting(table, Wanted::ABoolean, node, out)
}

/// An expression that must fit a variable of this type.
pub fn fitting(
    table: &Table,
    type_: Option<PascalType>,
    node: &Expr,
    out: &mut Items<Site>,
) -> Result<(), AllocError>
    ensures { OnOk result (out.new ≡ out.old ++ spec.fitting table.now type_ node.now) }
{
    let typed = expr(table, node, out)?;
    want_fitting(type_, typed, out)
}

/// The arguments of a call, an `init` or an `output`, by the name that is called.
pub fn called(
    table: &Table,
    name: &Name,
    args: &Option<Args>,
    out: &mut Items<Site>,
) -> Result<(), AllocError>
    ensures { OnOk result (out.new ≡ out.old ++ spec.called table.now name.now args.now) }
{
    let parameters = table.parameters(name);
    match args {
        None => call_of(name.span, parameters.len(), 0, out),
        Some(args) => {
            arguments(table, parameters, args.exprs.items(), out)?;
            call_of(name.span, parameters.len(), args.exprs.items().len(), out)
        }
    }
}

/// What is assigned, with its type: a variable, or alone by its name the result of a function.
pub fn assigned(
    table: &Table,
    node: &Variable,
    out: &mut Items<Site>,
) -> Result<Option<PascalType>, AllocError>
    ensures target { IfOk result (λ u. u ≡ spec.target_type table.now node.now (known table.now (out-Variable node.now).name)) }
    ensures sites { OnOk result (out.new ≡ out.old ++ spec.target_sites table.now node.now (known table.now (out-Variable node.now).name)) }
{
    match table.known(&node.name) {
        Meaning::Function { type_, .. } => Ok(type_),
        _ => {
            let typed = variable(table, node, out)?;
            Ok(typed.type_)
        }
    }
}
