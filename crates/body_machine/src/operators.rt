//! What instructions compute of one value, and of two.

ghost use Rattle.std.specs.Prelude.{◌≡◌};
ghost use Rattle.body_values.specs.Gives.{Gives};
ghost use Rattle.body_machine.specs.Operations.{unary_value, binary_value};
ghost use Rattle.body_machine.specs.declared.operators.Unary.TheVariants as Unary;
ghost use Rattle.body_machine.specs.declared.operators.Binary.TheVariants as Binary;

use body_values::{
    Stop, divided, members_from, minus, modulo, negation, one_member, ordinal_of, plus, preceding,
    related, required_value, signed, succeeding, times,
};
use estelle_model::Host;
use estelle_tree::{Relation, Required, Sign};
use pascal_values::Value;
use std::alloc::Global;

/// What is computed of one value.
#[derive(Clone, Copy)]
pub enum Unary {
    Neg,
    Abs,
    Sqr,
    Odd,
    Succ,
    Pred,
    Ord,
    Chr,
    Not,
    /// The set of one member.
    One,
}

/// What is computed of two values.
#[derive(Clone, Copy)]
pub enum Binary {
    /// The sum, or the union.
    Plus,
    /// The difference.
    Minus,
    /// The product, or the intersection.
    Times,
    Div,
    Mod,
    Compare(Relation),
    /// The set of all members between two.
    Span,
}

fn one(alloc: Global, value: &Value) -> Result<Value, Stop>
    ensures { Gives (unary_value Unary.One value.now) result }
{
    let member = ordinal_of(value)?;
    let members = one_member(alloc, member)?;
    Ok(Value::Set(members))
}

fn span(alloc: Global, first: &Value, last: &Value) -> Result<Value, Stop>
    ensures { Gives (binary_value Binary.Span first.now last.now) result }
{
    let from = ordinal_of(first)?;
    let to = ordinal_of(last)?;
    let members = members_from(alloc, from, to)?;
    Ok(Value::Set(members))
}

pub fn unary_value(alloc: Global, op: Unary, value: &Value) -> Result<Value, Stop>
    ensures { Gives (unary_value op value.now) result }
{
    match op {
        Unary::Neg => signed(Sign::Minus, value),
        Unary::Abs => required_value(Required::Abs, Host::Integer, value),
        Unary::Sqr => required_value(Required::Sqr, Host::Integer, value),
        Unary::Odd => required_value(Required::Odd, Host::Integer, value),
        Unary::Succ => succeeding(value),
        Unary::Pred => preceding(value),
        Unary::Ord => required_value(Required::Ord, Host::Integer, value),
        Unary::Chr => required_value(Required::Chr, Host::Integer, value),
        Unary::Not => negation(value),
        Unary::One => one(alloc, value),
    }
}

pub fn binary_value(alloc: Global, op: Binary, left: &Value, right: &Value) -> Result<Value, Stop>
    ensures { Gives (binary_value op left.now right.now) result }
{
    match op {
        Binary::Plus => plus(alloc, left, right),
        Binary::Minus => minus(alloc, left, right),
        Binary::Times => times(alloc, left, right),
        Binary::Div => divided(left, right),
        Binary::Mod => modulo(left, right),
        Binary::Compare(relation) => related(relation, left, right),
        Binary::Span => span(alloc, left, right),
    }
}
