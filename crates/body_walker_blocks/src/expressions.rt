//! Expressions (ISO 7185, 6.7).

ghost use Rattle.body_state.specs.Follows.{Follows};
ghost use Rattle.body_walker_blocks.specs.Walked as walked;

use crate::calls::{designated, valued};
use crate::operands::{decides_product, decides_sum, product, sum, with_members, with_sign};
use crate::scope::Scope;
use body_state::Walk;
use body_values::{
    Stop, bool_of, bound_of, members_from, negation, one_member, ordinal_of, related, selector_of,
};
use estelle_model::{Environment, Host};
use estelle_tree::{Adding, Elem, Expr, Factor, Multiplying, Sequence, SequenceMut, Simple, Term};
use pascal_values::{Members, Value};
use std::alloc::Global;

/// An expression.
#[cycle(walk)]
pub fn expr(
    scope: &Scope,
    alloc: Global,
    here: &Environment,
    walk: &mut Walk,
    node: &Expr,
) -> Result<Value, Stop>
    ensures { Follows (walked.expr scope.now here.now node.now).value walk.old result walk.new }
{
    let left = simple(scope, alloc, here, walk, &node.left)?;
    match &node.right {
        None => Ok(left),
        Some((relation, right)) => {
            let right = simple(scope, alloc, here, walk, right)?;
            related(*relation, &left, &right)
        }
    }
}

/// An expression whose value is a truth value.
#[cycle(walk)]
pub fn condition(
    scope: &Scope,
    alloc: Global,
    here: &Environment,
    walk: &mut Walk,
    node: &Expr,
) -> Result<bool, Stop>
    ensures { Follows (walked.condition scope.now here.now node.now) walk.old result walk.new }
{
    let value = expr(scope, alloc, here, walk, node)?;
    bool_of(&value)
}

/// An expression of an ordinal type, by its ordinal.
#[cycle(walk)]
pub fn ordinal(
    scope: &Scope,
    alloc: Global,
    here: &Environment,
    walk: &mut Walk,
    node: &Expr,
) -> Result<i64, Stop>
    ensures { Follows (walked.ordinal scope.now here.now node.now) walk.old result walk.new }
{
    let value = expr(scope, alloc, here, walk, node)?;
    ordinal_of(&value)
}

/// A bound of a `for` whose variable has this host, by its ordinal.
#[cycle(walk)]
pub fn bound(
    scope: &Scope,
    alloc: Global,
    here: &Environment,
    walk: &mut Walk,
    host: Host,
    node: &Expr,
) -> Result<i64, Stop>
    ensures { Follows (walked.bound scope.now here.now host node.now) walk.old result walk.new }
{
    let value = expr(scope, alloc, here, walk, node)?;
    bound_of(host, &value)
}

/// The selector of a `case`, by its ordinal.
#[cycle(walk)]
pub fn selector_ordinal(
    scope: &Scope,
    alloc: Global,
    here: &Environment,
    walk: &mut Walk,
    node: &Expr,
) -> Result<i64, Stop>
    ensures { Follows (walked.selector_of scope.now here.now node.now) walk.old result walk.new }
{
    let value = expr(scope, alloc, here, walk, node)?;
    selector_of(&value)
}

#[cycle(walk)]
fn simple(
    scope: &Scope,
    alloc: Global,
    here: &Environment,
    walk: &mut Walk,
    node: &Simple,
) -> Result<Value, Stop>
    ensures { Follows (walked.simple scope.now here.now node.now).value walk.old result walk.new }
{
    let first = term(scope, alloc, here, walk, &node.first)?;
    let mut value = with_sign(node.sign, first)?;
    for other in node.others.items() {
        value = added(scope, alloc, here, walk, other.0, value, &other.1)?;
    }
    Ok(value)
}

/// A sum with one more term. The right operand of `or` is evaluated only where the left one is false.
#[cycle(walk)]
fn added(
    scope: &Scope,
    alloc: Global,
    here: &Environment,
    walk: &mut Walk,
    operator: Adding,
    left: Value,
    node: &Term,
) -> Result<Value, Stop>
    ensures { Follows (walked.added scope.now here.now operator left node.now) walk.old result walk.new }
{
    if decides_sum(operator, &left)? {
        return Ok(Value::Bool(true));
    }
    let right = term(scope, alloc, here, walk, node)?;
    sum(alloc, operator, &left, &right)
}

#[cycle(walk)]
fn term(
    scope: &Scope,
    alloc: Global,
    here: &Environment,
    walk: &mut Walk,
    node: &Term,
) -> Result<Value, Stop>
    ensures { Follows (walked.term scope.now here.now node.now).value walk.old result walk.new }
{
    let mut value = factor(scope, alloc, here, walk, &node.first)?;
    for other in node.others.items() {
        value = multiplied(scope, alloc, here, walk, other.0, value, &other.1)?;
    }
    Ok(value)
}

/// A product with one more factor. The right operand of `and` is evaluated only where the left one is true.
#[cycle(walk)]
fn multiplied(
    scope: &Scope,
    alloc: Global,
    here: &Environment,
    walk: &mut Walk,
    operator: Multiplying,
    left: Value,
    node: &Factor,
) -> Result<Value, Stop>
    ensures { Follows (walked.multiplied scope.now here.now operator left node.now) walk.old result walk.new }
{
    if decides_product(operator, &left)? {
        return Ok(Value::Bool(false));
    }
    let right = factor(scope, alloc, here, walk, node)?;
    product(alloc, operator, &left, &right)
}

#[cycle(walk)]
fn factor(
    scope: &Scope,
    alloc: Global,
    here: &Environment,
    walk: &mut Walk,
    node: &Factor,
) -> Result<Value, Stop>
    ensures { Follows (walked.factor scope.now here.now node.now).value walk.old result walk.new }
{
    match node {
        Factor::Number { value, .. } => Ok(Value::Int(*value)),
        Factor::Char { value, .. } => Ok(Value::Char(*value)),
        Factor::Variable(variable) => valued(
            scope,
            alloc,
            here,
            walk,
            &variable.name,
            variable.selectors.items(),
        ),
        Factor::Call { name, args, .. } => designated(
            scope,
            alloc,
            here,
            walk,
            name,
            args.exprs.items(),
        ),
        Factor::Paren { inner, .. } => expr(scope, alloc, here, walk, inner.get()),
        Factor::Not { operand, .. } => {
            let operand = factor(scope, alloc, here, walk, operand.get())?;
            negation(&operand)
        }
        Factor::Set { elems, .. } => set_of(scope, alloc, here, walk, elems.items()),
    }
}

/// A set constructor: its members, each tested directly after its evaluation.
#[cycle(walk)]
fn set_of(
    scope: &Scope,
    alloc: Global,
    here: &Environment,
    walk: &mut Walk,
    elems: &[Elem],
) -> Result<Value, Stop>
    ensures { Follows (walked.set_of scope.now here.now elems.now) walk.old result walk.new }
{
    let mut made = Members::none(alloc);
    for elem in elems {
        let more = members(scope, alloc, here, walk, elem)?;
        made = with_members(alloc, made, more)?;
    }
    Ok(Value::Set(made))
}

/// The ordinals of a member designator.
#[cycle(walk)]
fn members(
    scope: &Scope,
    alloc: Global,
    here: &Environment,
    walk: &mut Walk,
    node: &Elem,
) -> Result<Members, Stop>
    ensures { Follows (walked.elem scope.now here.now node.now) walk.old result walk.new }
{
    let first = ordinal(scope, alloc, here, walk, &node.first)?;
    match &node.last {
        None => one_member(alloc, first),
        Some(last) => {
            let last = ordinal(scope, alloc, here, walk, last)?;
            members_from(alloc, first, last)
        }
    }
}
