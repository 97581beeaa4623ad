//! Expressions (ISO 7185, 6.7).

ghost use Rattle.std.specs.Prelude.{◌≡◌, IfOk, OnOk, Some};
ghost use Rattle.body_compiler_emission.specs.Drafts.{grown};
ghost use Rattle.body_compiler_emission.specs.Tails.{Computes, sum_tail, product_tail, placed};
ghost use Rattle.body_compiler_emission.specs.Emitted as emitted;
ghost use Rattle.body_compiler_pieces.specs.ExpressionCode as code;
ghost use Rattle.body_compiler_emission.specs.Scopes.{scope_of};

use crate::draft::Draft;
use crate::names::{designated, named_place, valued};
use crate::operators::{added_host, multiplied_host, relation, signed, signed_host, truth};
use crate::scope::Scope;
use body_code::Instr;
use estelle_model::Host;
use estelle_tree::{Adding, Elem, Expr, Factor, Multiplying, Sequence, Simple, Term};
use pascal_values::Value;
use std::alloc::AllocError;

/// An expression, and the host of its type.
#[cycle(values)]
#[tactic(auto, using(crate::proofs::ExpressionSteps::expr_alone, crate::proofs::ExpressionSteps::expr_value, crate::proofs::ExpressionSteps::expr_host))]
pub fn expr(scope: &Scope, unit: &mut Draft, node: &Expr) -> Result<Host, AllocError>
    ensures { IfOk result (λ h. Computes (emitted.expr scope.now node.now) h unit.old unit.new) }
{
    let host = simple(scope, unit, &node.left)?;
    match &node.right {
        None => Ok(host),
        Some((operator, right)) => {
            simple(scope, unit, right)?;
            unit.push(relation(*operator))?;
            Ok(Host::Boolean)
        }
    }
}

#[cycle(values)]
#[tactic(auto, using(crate::proofs::ExpressionSteps::simple_value, crate::proofs::ExpressionSteps::simple_host))]
fn simple(scope: &Scope, unit: &mut Draft, node: &Simple) -> Result<Host, AllocError>
    ensures { IfOk result (λ h. Computes (emitted.simple scope.now node.now) h unit.old unit.new) }
{
    let first = term(scope, unit, &node.first)?;
    signed(unit, node.sign)?;
    let mut host = signed_host(node.sign, first);
    for other in node.others.items() {
        added(scope, unit, other.0, &other.1)?;
        host = added_host(other.0);
    }
    Ok(host)
}

/// A sum with one more term. The right operand of `or` is evaluated only where the left one is false.
#[cycle(values)]
#[tactic(auto, using(crate::proofs::ExpressionSteps::plus_steps, crate::proofs::ExpressionSteps::minus_steps, crate::proofs::ExpressionSteps::or_steps))]
fn added(scope: &Scope, unit: &mut Draft, operator: Adding, node: &Term) -> Result<(), AllocError>
    ensures { OnOk result (unit.new ≡ grown (sum_tail operator (emitted.term scope.now node.now).value) unit.old) }
{
    match operator {
        Adding::Plus => {
            term(scope, unit, node)?;
            unit.push(Instr::Add)
        }
        Adding::Minus => {
            term(scope, unit, node)?;
            unit.push(Instr::Sub)
        }
        Adding::Or => {
            let test = unit.hole(Instr::Jfalse(0))?;
            unit.push(Instr::Push(Value::Bool(true)))?;
            let end = unit.hole(Instr::Jump(0))?;
            term(scope, unit, node)?;
            truth(unit)?;
            unit.close_fork(test, end)
        }
    }
}

#[cycle(values)]
#[tactic(auto, using(crate::proofs::ExpressionSteps::term_value, crate::proofs::ExpressionSteps::term_host))]
fn term(scope: &Scope, unit: &mut Draft, node: &Term) -> Result<Host, AllocError>
    ensures { IfOk result (λ h. Computes (emitted.term scope.now node.now) h unit.old unit.new) }
{
    let mut host = factor(scope, unit, &node.first)?;
    for other in node.others.items() {
        multiplied(scope, unit, other.0, &other.1)?;
        host = multiplied_host(scope, other.0);
    }
    Ok(host)
}

/// A product with one more factor. The right operand of `and` is evaluated only where the left one is true.
#[cycle(values)]
#[tactic(auto, using(crate::proofs::ExpressionSteps::star_steps, crate::proofs::ExpressionSteps::div_steps, crate::proofs::ExpressionSteps::mod_steps, crate::proofs::ExpressionSteps::and_steps))]
fn multiplied(
    scope: &Scope,
    unit: &mut Draft,
    operator: Multiplying,
    node: &Factor,
) -> Result<(), AllocError>
    ensures { OnOk result (unit.new ≡ grown (product_tail operator (emitted.factor scope.now node.now).value) unit.old) }
{
    match operator {
        Multiplying::Star => {
            factor(scope, unit, node)?;
            unit.push(Instr::Mul)
        }
        Multiplying::Div => {
            factor(scope, unit, node)?;
            unit.push(Instr::Div)
        }
        Multiplying::Mod => {
            factor(scope, unit, node)?;
            unit.push(Instr::Mod)
        }
        Multiplying::And => {
            let test = unit.hole(Instr::Jfalse(0))?;
            factor(scope, unit, node)?;
            truth(unit)?;
            let end = unit.hole(Instr::Jump(0))?;
            unit.push(Instr::Push(Value::Bool(false)))?;
            unit.close_fork(test, end)
        }
    }
}

#[cycle(values)]
#[tactic(auto, using(crate::proofs::FactorSteps::number_value, crate::proofs::FactorSteps::number_host, crate::proofs::FactorSteps::char_value, crate::proofs::FactorSteps::char_host, crate::proofs::FactorSteps::variable_is, crate::proofs::FactorSteps::call_is, crate::proofs::FactorSteps::paren_value, crate::proofs::FactorSteps::paren_host, crate::proofs::FactorSteps::not_value, crate::proofs::FactorSteps::not_host, crate::proofs::FactorSteps::set_value, crate::proofs::FactorSteps::set_host))]
fn factor(scope: &Scope, unit: &mut Draft, node: &Factor) -> Result<Host, AllocError>
    ensures { IfOk result (λ h. Computes (emitted.factor scope.now node.now) h unit.old unit.new) }
{
    match node {
        Factor::Number { value, .. } => {
            unit.push(Instr::Push(Value::Int(*value)))?;
            Ok(Host::Integer)
        }
        Factor::Char { value, .. } => {
            unit.push(Instr::Push(Value::Char(*value)))?;
            Ok(Host::Char)
        }
        Factor::Variable(variable) => {
            valued(scope, unit, &variable.name, variable.selectors.items())
        }
        Factor::Call { name, args, .. } => designated(scope, unit, name, args.exprs.items()),
        Factor::Paren { inner, .. } => expr(scope, unit, inner.get()),
        Factor::Not { operand, .. } => {
            factor(scope, unit, operand.get())?;
            unit.push(Instr::Not)?;
            Ok(Host::Boolean)
        }
        Factor::Set { elems, .. } => {
            unit.push(Instr::Empty)?;
            united(scope, unit, elems.items())?;
            Ok(Host::Integer)
        }
    }
}

/// The members of a set constructor, united one after another.
#[cycle(values)]
#[tactic(auto, using(crate::proofs::ExpressionSteps::united_value))]
fn united(scope: &Scope, unit: &mut Draft, elems: &[Elem]) -> Result<(), AllocError>
    ensures { OnOk result (unit.new ≡ grown (emitted.united scope.now elems.now) unit.old) }
{
    for each in elems {
        elem(scope, unit, each)?;
        unit.push(Instr::Unite)?;
    }
    Ok(())
}

/// The set of a member designator.
#[cycle(values)]
#[tactic(auto, using(crate::proofs::ExpressionSteps::one_member_steps, crate::proofs::ExpressionSteps::span_steps))]
fn elem(scope: &Scope, unit: &mut Draft, node: &Elem) -> Result<(), AllocError>
    ensures { OnOk result (unit.new ≡ grown (emitted.elem scope.now node.now) unit.old) }
{
    expr(scope, unit, &node.first)?;
    match &node.last {
        None => unit.push(Instr::One),
        Some(last) => {
            unit.push(Instr::Ord)?;
            expr(scope, unit, last)?;
            unit.push(Instr::Span)
        }
    }
}

/// The place of the variable that an expression is alone.
#[cycle(values)]
#[tactic(auto, using(crate::proofs::ExpressionSteps::expr_alone))]
pub fn place(scope: &Scope, unit: &mut Draft, node: &Expr) -> Result<(), AllocError>
    ensures { OnOk result (Some unit.new ≡ placed (emitted.expr scope.now node.now).place unit.old) }
{
    match &node.right {
        None => simple_place(scope, unit, &node.left),
        Some(_) => Err(AllocError),
    }
}

#[cycle(values)]
#[tactic(auto, using(crate::proofs::FactorSteps::simple_alone))]
fn simple_place(scope: &Scope, unit: &mut Draft, node: &Simple) -> Result<(), AllocError>
    ensures { OnOk result (Some unit.new ≡ placed (emitted.simple scope.now node.now).place unit.old) }
{
    match (node.sign, node.others.items()) {
        (None, []) => term_place(scope, unit, &node.first),
        _ => Err(AllocError),
    }
}

#[cycle(values)]
#[tactic(auto, using(crate::proofs::FactorSteps::term_alone))]
fn term_place(scope: &Scope, unit: &mut Draft, node: &Term) -> Result<(), AllocError>
    ensures { OnOk result (Some unit.new ≡ placed (emitted.term scope.now node.now).place unit.old) }
{
    match node.others.items() {
        [] => factor_place(scope, unit, &node.first),
        _ => Err(AllocError),
    }
}

#[cycle(values)]
#[tactic(auto, using(crate::proofs::FactorSteps::variable_is))]
fn factor_place(scope: &Scope, unit: &mut Draft, node: &Factor) -> Result<(), AllocError>
    ensures { OnOk result (Some unit.new ≡ placed (emitted.factor scope.now node.now).place unit.old) }
{
    match node {
        Factor::Variable(variable) => {
            named_place(scope, unit, &variable.name, variable.selectors.items())
        }
        _ => Err(AllocError),
    }
}
