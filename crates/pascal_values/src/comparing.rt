//! The operators that compare. No call takes memory.

ghost use Rattle.std.specs.Prelude.{◌≡◌};
ghost use Rattle.pascal_values.specs.Order.{holds, set_holds, compares};

use crate::members::Members;
use crate::sets::is_within;
use crate::value::{Relation, Value};
use std::cmp::Ordering;

/// Whether two values of one simple kind, or two sets, stand in the relation. Of other values, of
/// unset ones, and of sets under `Lt` and `Gt` the answer is no.
pub fn compare(op: Relation, a: &Value, b: &Value) -> bool
    ensures { result ≡ compares op a.now b.now }
{
    match (a, b) {
        (Value::Int(m), Value::Int(n)) => is_met(op, m.cmp(n)),
        (Value::Bool(m), Value::Bool(n)) => is_met(op, m.cmp(n)),
        (Value::Char(m), Value::Char(n)) => is_met(op, m.cmp(n)),
        (Value::Enum(m), Value::Enum(n)) => is_met(op, m.cmp(n)),
        (Value::Set(m), Value::Set(n)) => is_met_by_sets(op, m, n),
        _ => false,
    }
}

fn is_met(op: Relation, ordering: Ordering) -> bool
    ensures { result ≡ holds op ordering }
{
    match op {
        Relation::Eq => ordering.is_eq(),
        Relation::Ne => ordering.is_ne(),
        Relation::Lt => ordering.is_lt(),
        Relation::Le => ordering.is_le(),
        Relation::Gt => ordering.is_gt(),
        Relation::Ge => ordering.is_ge(),
    }
}

fn is_met_by_sets(op: Relation, a: &Members, b: &Members) -> bool
    ensures { result ≡ set_holds op a.now b.now }
{
    match op {
        Relation::Eq => is_within(a, b) && is_within(b, a),
        Relation::Ne => !(is_within(a, b) && is_within(b, a)),
        Relation::Le => is_within(a, b),
        Relation::Ge => is_within(b, a),
        Relation::Lt | Relation::Gt => false,
    }
}
