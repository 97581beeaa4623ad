//! Expressions.

ghost use Rattle.std.specs.Prelude.{◌≡◌, ◌++◌, map, IfOk, OnOk};
ghost use Rattle.std.specs.List.{flat_map};
ghost use Rattle.type_rules.specs.declared.sites.Members.TheVariants.{NoMember};
ghost use Rattle.type_rules.specs.ExpressionSites as spec;

use crate::places::{
    argument, call_of, field, first_of, indexed, member, named, negated, operation, rest_of,
    routine_called, signed, taken_first, type_in,
};
use declaration_table::Table;
use estelle_tree::{
    Elem, Expr, Factor, Items, Name, Selector, Sequence, Simple, Span, Term, Variable,
};
use std::alloc::AllocError;
use type_rules::{
    Host, Meaning, Members, Parameter, PascalType, Site, Typed, adding, multiplying, placed_at,
    relating, required_result, set_type_of, value_at,
};

/// An expression, with its type.
#[cycle(expressions)]
pub fn expr(table: &Table, node: &Expr, out: &mut Items<Site>) -> Result<Typed, AllocError>
    ensures typed { IfOk result (λ t. t ≡ (spec.expr table.now node.now).typed) }
    ensures sites { OnOk result (out.new ≡ out.old ++ (spec.expr table.now node.now).sites) }
{
    let left = simple(table, &node.left, out)?;
    match &node.right {
        None => Ok(left),
        Some((relation, right)) => {
            let right = simple(table, right, out)?;
            operation(relating(*relation), left, right, out)
        }
    }
}

#[cycle(expressions)]
fn simple(table: &Table, node: &Simple, out: &mut Items<Site>) -> Result<Typed, AllocError>
    ensures typed { IfOk result (λ t. t ≡ (spec.simple table.now node.now).typed) }
    ensures sites { OnOk result (out.new ≡ out.old ++ (spec.simple table.now node.now).sites) }
{
    let first = term(table, &node.first, out)?;
    let mut typed = signed(node.span, node.sign, first, out)?;
    for other in node.others.items() {
        let right = term(table, &other.1, out)?;
        typed = operation(adding(other.0), typed, right, out)?;
    }
    Ok(typed)
}

#[cycle(expressions)]
fn term(table: &Table, node: &Term, out: &mut Items<Site>) -> Result<Typed, AllocError>
    ensures typed { IfOk result (λ t. t ≡ (spec.term table.now node.now).typed) }
    ensures sites { OnOk result (out.new ≡ out.old ++ (spec.term table.now node.now).sites) }
{
    let mut typed = factor(table, &node.first, out)?;
    for other in node.others.items() {
        let right = factor(table, &other.1, out)?;
        typed = operation(multiplying(other.0), typed, right, out)?;
    }
    Ok(typed)
}

#[cycle(expressions)]
fn factor(table: &Table, node: &Factor, out: &mut Items<Site>) -> Result<Typed, AllocError>
    ensures typed { IfOk result (λ t. t ≡ (spec.factor table.now node.now).typed) }
    ensures sites { OnOk result (out.new ≡ out.old ++ (spec.factor table.now node.now).sites) }
{
    match node {
        Factor::Number { span, .. } => Ok(value_at(*span, Some(PascalType::Whole(Host::Integer)))),
        Factor::Char { span, .. } => Ok(value_at(*span, Some(PascalType::Whole(Host::Char)))),
        Factor::Variable(inner) => variable(table, inner, out),
        Factor::Call { name, args, span } => function_call(
            table,
            *span,
            name,
            args.exprs.items(),
            out,
        ),
        Factor::Paren { inner, span } => {
            let inner = expr(table, inner.get(), out)?;
            Ok(value_at(*span, inner.type_))
        }
        Factor::Not { operand, span } => {
            let operand = factor(table, operand.get(), out)?;
            negated(*span, operand, out)
        }
        Factor::Set { elems, span } => {
            let all = members(table, elems.items(), out)?;
            Ok(value_at(*span, set_type_of(*span, all)))
        }
    }
}

/// The members of a set constructor.
#[cycle(expressions)]
fn members(table: &Table, elems: &[Elem], out: &mut Items<Site>) -> Result<Members, AllocError>
    ensures members { IfOk result (λ m. m ≡ spec.with_all NoMember (flat_map (spec.elem table.now) elems.now)) }
    ensures sites { OnOk result (out.new ≡ out.old ++ spec.member_sites NoMember (flat_map (spec.elem table.now) elems.now)) }
{
    let mut so_far = Members::NoMember;
    for elem in elems {
        let first = expr(table, &elem.first, out)?;
        so_far = member(so_far, first, out)?;
        if let Some(last) = &elem.last {
            let last = expr(table, last, out)?;
            so_far = member(so_far, last, out)?;
        }
    }
    Ok(so_far)
}

/// Arguments, each with its parameter.
#[cycle(expressions)]
pub fn arguments(
    table: &Table,
    parameters: &[Parameter],
    exprs: &[Expr],
    out: &mut Items<Site>,
) -> Result<(), AllocError>
    ensures { OnOk result (out.new ≡ out.old ++ spec.arguments parameters.now (map (spec.expr table.now) exprs.now)) }
{
    let mut parameters = parameters;
    for actual in exprs {
        let typed = expr(table, actual, out)?;
        argument(first_of(parameters), typed, out)?;
        parameters = rest_of(parameters);
    }
    Ok(())
}

/// A function designator, which has the type of its function's result.
#[cycle(expressions)]
fn function_call(
    table: &Table,
    at: Span,
    name: &Name,
    exprs: &[Expr],
    out: &mut Items<Site>,
) -> Result<Typed, AllocError>
    ensures typed { IfOk result (λ t. t ≡ (spec.function_call table.now at name.now (map (spec.expr table.now) exprs.now)).typed) }
    ensures sites { OnOk result (out.new ≡ out.old ++ (spec.function_call table.now at name.now (map (spec.expr table.now) exprs.now)).sites) }
{
    match table.known(name) {
        Meaning::Function { type_, body } => {
            let parameters = table.parameters(name);
            routine_called(table, name, body, out)?;
            arguments(table, parameters, exprs, out)?;
            call_of(name.span, parameters.len(), exprs.len(), out)?;
            Ok(value_at(at, type_))
        }
        Meaning::RequiredFunction(required) => {
            let mut first = None;
            for actual in exprs {
                let typed = expr(table, actual, out)?;
                first = taken_first(required, first, typed, out)?;
            }
            call_of(name.span, 1, exprs.len(), out)?;
            Ok(value_at(at, required_result(required, type_in(first))))
        }
        _ => {
            arguments(table, &[], exprs, out)?;
            Ok(value_at(at, None))
        }
    }
}

/// A variable, with its type.
#[cycle(expressions)]
pub fn variable(table: &Table, node: &Variable, out: &mut Items<Site>) -> Result<Typed, AllocError>
    ensures typed { IfOk result (λ t. t ≡ (spec.variable table.now node.now).typed) }
    ensures sites { OnOk result (out.new ≡ out.old ++ (spec.variable table.now node.now).sites) }
{
    let whole = named(table, &node.name, out)?;
    let mut typed = placed_at(node.span, whole);
    for selector in node.selectors.items() {
        typed = selected(table, typed, selector, out)?;
    }
    Ok(typed)
}

#[cycle(expressions)]
fn selected(
    table: &Table,
    of: Typed,
    selector: &Selector,
    out: &mut Items<Site>,
) -> Result<Typed, AllocError>
    ensures typed { IfOk result (λ t. t ≡ (spec.selected table.now (record { typed = of; sites = out.old }) (spec.selector table.now selector.now)).typed) }
    ensures sites { OnOk result (out.new ≡ (spec.selected table.now (record { typed = of; sites = out.old }) (spec.selector table.now selector.now)).sites) }
{
    match selector {
        Selector::Index(exprs) => {
            let mut typed = of;
            for index in exprs.items() {
                let index = expr(table, index, out)?;
                typed = indexed(table, typed, index, out)?;
            }
            Ok(typed)
        }
        Selector::Field(name) => Ok(field(table, of, name)),
    }
}
