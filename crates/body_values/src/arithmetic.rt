//! The operators of integers, of sets and of truth values that evaluate their operands (ISO 7185, 6.7.2).

ghost use Rattle.std.specs.Prelude.{◌≡◌};
ghost use Rattle.estelle_model.specs.Operators.{plus, minus, times, divided, modulo, signed, negation, an_int};
ghost use Rattle.body_values.specs.Gives.{Gives};

use crate::stop::Stop;
use estelle_tree::Sign;
use pascal_values::{self, Fault, Members, Value, add, divide, meet, mul, sub, unite};
use std::alloc::Global;

/// An integer as a value.
pub fn an_int(n: Result<i64, Fault>) -> Result<Value, Stop>
    ensures { Gives (an_int n) result }
{
    match n {
        Ok(n) => Ok(Value::Int(n)),
        Err(fault) => Err(Stop::Fault(fault)),
    }
}

/// `+`
pub fn plus(alloc: Global, left: &Value, right: &Value) -> Result<Value, Stop>
    ensures { Gives (plus left.now right.now) result }
{
    match (left, right) {
        (Value::Int(m), Value::Int(n)) => an_int(add(*m, *n)),
        (Value::Set(a), Value::Set(b)) => Ok(Value::Set(unite(alloc, a, b)?)),
        _ => Err(Stop::Broken),
    }
}

/// `-`
pub fn minus(alloc: Global, left: &Value, right: &Value) -> Result<Value, Stop>
    ensures { Gives (minus left.now right.now) result }
{
    match (left, right) {
        (Value::Int(m), Value::Int(n)) => an_int(sub(*m, *n)),
        (Value::Set(a), Value::Set(b)) => Ok(Value::Set(pascal_values::minus(alloc, a, b)?)),
        _ => Err(Stop::Broken),
    }
}

/// `*`
pub fn times(alloc: Global, left: &Value, right: &Value) -> Result<Value, Stop>
    ensures { Gives (times left.now right.now) result }
{
    match (left, right) {
        (Value::Int(m), Value::Int(n)) => an_int(mul(*m, *n)),
        (Value::Set(a), Value::Set(b)) => Ok(Value::Set(meet(alloc, a, b)?)),
        _ => Err(Stop::Broken),
    }
}

/// `div`
pub fn divided(left: &Value, right: &Value) -> Result<Value, Stop>
    ensures { Gives (divided left.now right.now) result }
{
    match (left, right) {
        (Value::Int(m), Value::Int(n)) => an_int(divide(*m, *n)),
        _ => Err(Stop::Broken),
    }
}

/// `mod`
pub fn modulo(left: &Value, right: &Value) -> Result<Value, Stop>
    ensures { Gives (modulo left.now right.now) result }
{
    match (left, right) {
        (Value::Int(m), Value::Int(n)) => an_int(pascal_values::modulo(*m, *n)),
        _ => Err(Stop::Broken),
    }
}

/// A sign in front of a term.
pub fn signed(sign: Sign, value: &Value) -> Result<Value, Stop>
    ensures { Gives (signed sign value.now) result }
{
    match (sign, value) {
        (Sign::Plus, Value::Int(n)) => an_int(Ok(*n)),
        (Sign::Minus, Value::Int(n)) => an_int(sub(0, *n)),
        _ => Err(Stop::Broken),
    }
}

/// `not`
pub fn negation(value: &Value) -> Result<Value, Stop>
    ensures { Gives (negation value.now) result }
{
    match value {
        Value::Bool(b) => Ok(Value::Bool(!*b)),
        _ => Err(Stop::Broken),
    }
}
