//! Operations on operands that are evaluated already.

ghost use Rattle.std.specs.Prelude.{◌≡◌};
ghost use Rattle.std.specs.Option.{option_copied};
ghost use Rattle.body_values.specs.Gives.{Gives};
ghost use Rattle.body_walker_blocks.specs.Operands as spec;

use body_values::{Stop, bool_of, divided, fits, minus, modulo, plus, signed, times};
use estelle_model::{ActualParameters, Place, Type};
use estelle_tree::{Adding, Expr, Factor, Multiplying, Sequence, Sign, Simple, Term, Variable};
use pascal_values::{Members, Value, unite};
use std::alloc::Global;

/// Whether the left operand of an adding operator decides its result: it is that of `or`, and true.
pub fn decides_sum(operator: Adding, left: &Value) -> Result<bool, Stop>
    ensures { Gives (spec.decides_sum operator left.now) result }
{
    match operator {
        Adding::Plus | Adding::Minus => Ok(false),
        Adding::Or => bool_of(left),
    }
}

/// Whether the left operand of a multiplying operator decides its result: it is that of `and`, and false.
pub fn decides_product(operator: Multiplying, left: &Value) -> Result<bool, Stop>
    ensures { Gives (spec.decides_product operator left.now) result }
{
    match operator {
        Multiplying::Star | Multiplying::Div | Multiplying::Mod => Ok(false),
        Multiplying::And => is_false(left),
    }
}

fn is_false(value: &Value) -> Result<bool, Stop>
    ensures { Gives (spec.is_false value.now) result }
{
    let b = bool_of(value)?;
    Ok(!b)
}

/// A truth value, which the right operand of `and` and of `or` must be.
fn truth(value: &Value) -> Result<Value, Stop>
    ensures { Gives (spec.truth value.now) result }
{
    let b = bool_of(value)?;
    Ok(Value::Bool(b))
}

/// The result of an adding operator that its left operand does not decide.
pub fn sum(alloc: Global, operator: Adding, left: &Value, right: &Value) -> Result<Value, Stop>
    ensures { Gives (spec.sum operator left.now right.now) result }
{
    match operator {
        Adding::Plus => plus(alloc, left, right),
        Adding::Minus => minus(alloc, left, right),
        Adding::Or => truth(right),
    }
}

/// The result of a multiplying operator that its left operand does not decide.
pub fn product(
    alloc: Global,
    operator: Multiplying,
    left: &Value,
    right: &Value,
) -> Result<Value, Stop>
    ensures { Gives (spec.product operator left.now right.now) result }
{
    match operator {
        Multiplying::Star => times(alloc, left, right),
        Multiplying::Div => divided(left, right),
        Multiplying::Mod => modulo(left, right),
        Multiplying::And => truth(right),
    }
}

/// A first term behind its sign, if it has one.
pub fn with_sign(sign: Option<Sign>, first: Value) -> Result<Value, Stop>
    ensures { Gives (spec.with_sign sign first) result }
{
    match sign {
        None | Some(Sign::Plus) => Ok(first),
        Some(Sign::Minus) => signed(Sign::Minus, &first),
    }
}

/// A set with more members.
pub fn with_members(alloc: Global, made: Members, more: Members) -> Result<Members, Stop>
    ensures { Gives (spec.with_members made more) result }
{
    let all = unite(alloc, &made, &more)?;
    Ok(all)
}

/// The value of an argument, which must fit its parameter's type.
pub fn fitted(denoter: &Type, value: Value) -> Result<Value, Stop>
    ensures { Gives (spec.fitted denoter.now value) result }
{
    match fits(denoter.denoter(), &value) {
        Ok(()) => Ok(value),
        Err(fault) => Err(Stop::Fault(fault)),
    }
}

/// The variable that an expression is alone, without parentheses.
pub fn variable_in(node: &Expr) -> Option<&Variable>
    ensures { option_copied result ≡ spec.variable_in node.now }
{
    match &node.right {
        None => variable_of_simple(&node.left),
        Some(_) => None,
    }
}

fn variable_of_simple(node: &Simple) -> Option<&Variable>
    ensures { option_copied result ≡ spec.variable_of_simple node.now }
{
    match (node.sign, node.others.items()) {
        (None, []) => variable_of_term(&node.first),
        _ => None,
    }
}

fn variable_of_term(node: &Term) -> Option<&Variable>
    ensures { option_copied result ≡ spec.variable_of_term node.now }
{
    match node.others.items() {
        [] => variable_of_factor(&node.first),
        _ => None,
    }
}

fn variable_of_factor(node: &Factor) -> Option<&Variable>
    ensures { option_copied result ≡ spec.variable_of_factor node.now }
{
    match node {
        Factor::Variable(variable) => Some(variable),
        _ => None,
    }
}

/// The arguments with one more value.
pub fn with_value(given: ActualParameters, value: Value) -> Result<ActualParameters, Stop>
    ensures { Gives (spec.with_value given value) result }
{
    let mut given = given;
    given.values.push(value)?;
    Ok(given)
}

/// The arguments with the place for one more var parameter.
pub fn with_reference(given: ActualParameters, place: Place) -> Result<ActualParameters, Stop>
    ensures { Gives (spec.with_reference given place) result }
{
    let mut given = given;
    given.references.push(place)?;
    Ok(given)
}
