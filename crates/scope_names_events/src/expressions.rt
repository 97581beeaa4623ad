//! Expressions.

ghost use Rattle.std.specs.Prelude.{◌≡◌, ◌++◌, map, OnOk, IfOk};
ghost use Rattle.std.specs.List.{flat_map};
ghost use Rattle.scope_rules.specs.declared.event.Step.TheVariants as step;
ghost use Rattle.scope_rules.specs.ExpressionEvents as spec;
ghost use Rattle.scope_names_events.specs.Writing.{write};

use crate::node::Node;
use crate::writer::{Writer, copy_name};
use estelle_tree::{Args, Elem, Expr, Factor, Items, Selector, Sequence, Simple, Term, Variable};
use scope_rules::{Event, Need, Step};
use std::alloc::{AllocError, Global};

/// One step for each expression of an index.
fn push_indices(exprs: &[Expr], steps: &mut Items<Step>) -> Result<(), AllocError>
    ensures { OnOk result (steps.new ≡ steps.old ++ map (λ x. step.Index) exprs.now) }
{
    for _expr in exprs {
        steps.push(Step::Index)?;
    }
    Ok(())
}

fn push_steps(alloc: Global, selector: &Selector, steps: &mut Items<Step>) -> Result<(), AllocError>
    ensures { OnOk result (steps.new ≡ steps.old ++ (spec.selector selector.now).0) }
{
    match selector {
        Selector::Index(exprs) => push_indices(exprs.items(), steps),
        Selector::Field(name) => {
            let name = copy_name(alloc, name)?;
            steps.push(Step::Member {
                name,
                need: Need::Component,
            })
        }
    }
}

/// The steps of all selectors.
fn steps_of(alloc: Global, selectors: &[Selector]) -> Result<Items<Step>, AllocError>
    ensures { IfOk result (λ steps. steps ≡ flat_map (λ s. (spec.selector s).0) selectors.now) }
{
    let mut steps = Items::new(alloc);
    for selector in selectors {
        push_steps(alloc, selector, &mut steps)?;
    }
    Ok(steps)
}

/// What the name of a variable must mean.
fn needed(alone: Need, steps: &[Step]) -> Need
    ensures { result ≡ spec.needed alone steps.now }
{
    match steps {
        [] => alone,
        [Step::Index, ..] => Need::Variable,
        [_, ..] => Need::Selected,
    }
}

#[cycle(expressions)]
fn write_expr(expr: &Expr, out: &mut Writer) -> Result<(), AllocError>
    ensures { OnOk result (out.new ≡ write out.old (spec.expr expr.now)) }
{
    write_simple(&expr.left, out)?;
    match &expr.right {
        Some((_, right)) => write_simple(right, out),
        None => Ok(()),
    }
}

#[cycle(expressions)]
fn write_simple(simple: &Simple, out: &mut Writer) -> Result<(), AllocError>
    ensures { OnOk result (out.new ≡ write out.old (spec.simple simple.now)) }
{
    write_term(&simple.first, out)?;
    for other in simple.others.items() {
        write_term(&other.1, out)?;
    }
    Ok(())
}

#[cycle(expressions)]
fn write_term(term: &Term, out: &mut Writer) -> Result<(), AllocError>
    ensures { OnOk result (out.new ≡ write out.old (spec.term term.now)) }
{
    write_factor(&term.first, out)?;
    for other in term.others.items() {
        write_factor(&other.1, out)?;
    }
    Ok(())
}

#[cycle(expressions)]
fn write_factor(factor: &Factor, out: &mut Writer) -> Result<(), AllocError>
    ensures { OnOk result (out.new ≡ write out.old (spec.factor factor.now)) }
{
    match factor {
        Factor::Number { .. } | Factor::Char { .. } => Ok(()),
        Factor::Variable(variable) => write_access(variable, Need::Value, out),
        Factor::Call { name, args, .. } => {
            out.use_alone(Need::Function, name)?;
            write_exprs(args.exprs.items(), out)
        }
        Factor::Paren { inner, .. } => write_expr(inner.get(), out),
        Factor::Not { operand, .. } => write_factor(operand.get(), out),
        Factor::Set { elems, .. } => write_elems(elems.items(), out),
    }
}

#[cycle(expressions)]
fn write_elems(elems: &[Elem], out: &mut Writer) -> Result<(), AllocError>
    ensures { OnOk result (out.new ≡ write out.old (flat_map spec.elem elems.now)) }
{
    for elem in elems {
        write_elem(elem, out)?;
    }
    Ok(())
}

#[cycle(expressions)]
fn write_elem(elem: &Elem, out: &mut Writer) -> Result<(), AllocError>
    ensures { OnOk result (out.new ≡ write out.old (spec.elem elem.now)) }
{
    write_expr(&elem.first, out)?;
    match &elem.last {
        Some(last) => write_expr(last, out),
        None => Ok(()),
    }
}

#[cycle(expressions)]
fn write_exprs(exprs: &[Expr], out: &mut Writer) -> Result<(), AllocError>
    ensures { OnOk result (out.new ≡ write out.old (flat_map spec.expr exprs.now)) }
{
    for expr in exprs {
        write_expr(expr, out)?;
    }
    Ok(())
}

/// A variable, which is used as its place needs where nothing stands behind its name.
#[cycle(expressions)]
fn write_access(variable: &Variable, alone: Need, out: &mut Writer) -> Result<(), AllocError>
    ensures { OnOk result (out.new ≡ write out.old (spec.access_events alone (spec.variable variable.now))) }
{
    let name = copy_name(out.alloc, &variable.name)?;
    let steps = steps_of(out.alloc, variable.selectors.items())?;
    let need = needed(alone, steps.items());
    out.push(Event::Use { name, need, steps })?;
    write_selectors(variable.selectors.items(), out)
}

#[cycle(expressions)]
fn write_selectors(selectors: &[Selector], out: &mut Writer) -> Result<(), AllocError>
    ensures { OnOk result (out.new ≡ write out.old (flat_map (λ s. (spec.selector s).1) selectors.now)) }
{
    for selector in selectors {
        write_selector(selector, out)?;
    }
    Ok(())
}

#[cycle(expressions)]
fn write_selector(selector: &Selector, out: &mut Writer) -> Result<(), AllocError>
    ensures { OnOk result (out.new ≡ write out.old (spec.selector selector.now).1) }
{
    match selector {
        Selector::Index(exprs) => write_exprs(exprs.items(), out),
        Selector::Field(_) => Ok(()),
    }
}

impl Node for Expr {
    ghost events = { spec.expr };

    fn write(&self, out: &mut Writer) -> Result<(), AllocError> {
        write_expr(self, out)
    }
}

impl Node for Args {
    ghost events = { spec.args };

    fn write(&self, out: &mut Writer) -> Result<(), AllocError> {
        write_exprs(self.exprs.items(), out)
    }
}

/// The left side of an assignment.
pub fn write_assigned(variable: &Variable, out: &mut Writer) -> Result<(), AllocError>
    ensures { OnOk result (out.new ≡ write out.old (spec.assigned variable.now)) }
{
    write_access(variable, Need::Assigned, out)
}
