//! Whether outputs, drops and faults are those of an event. No call takes memory.

ghost use Rattle.std.specs.Prelude.{◌≡◌, ◌↔◌, IsTrue};

use estelle_lists::Sequence;
use estelle_model::Out;
use estelle_tree::{Path, Word};
use pascal_values::{Fault, Value};

/// Whether two values are one, part by part.
#[cycle(same)]
fn same_value(a: &Value, b: &Value) -> bool
    ensures { IsTrue result ↔ (a.now ≡ b.now) }
{
    match a {
        Value::Unset => match b {
            Value::Unset => true,
            _ => false,
        },
        Value::Int(m) => match b {
            Value::Int(n) => *m == *n,
            _ => false,
        },
        Value::Bool(m) => match b {
            Value::Bool(n) => *m == *n,
            _ => false,
        },
        Value::Char(m) => match b {
            Value::Char(n) => *m == *n,
            _ => false,
        },
        Value::Enum(m) => match b {
            Value::Enum(n) => *m == *n,
            _ => false,
        },
        Value::Set(m) => match b {
            Value::Set(n) => m.items() == n.items(),
            _ => false,
        },
        Value::Array(m) => match b {
            Value::Array(n) => same_values(m.items(), n.items()),
            _ => false,
        },
        Value::Fields(m) => match b {
            Value::Fields(n) => same_values(m.items(), n.items()),
            _ => false,
        },
    }
}

#[cycle(same)]
fn same_values(a: &[Value], b: &[Value]) -> bool
    ensures { IsTrue result ↔ (a.now ≡ b.now) }
{
    if a.len() != b.len() {
        return false;
    }
    for i in 0..a.len() {
        if !same_value(&a[i], &b[i]) {
            return false;
        }
    }
    true
}

fn same_word(a: &Word, b: &Word) -> bool
    ensures { IsTrue result ↔ (a.now ≡ b.now) }
{
    a.items() == b.items()
}

fn same_out(a: &Out, b: &Out) -> bool
    ensures { IsTrue result ↔ (a.now ≡ b.now) }
{
    a.lost == b.lost
        && a.path.items() == b.path.items()
        && same_word(&a.ip, &b.ip)
        && same_word(&a.name, &b.name)
        && same_values(a.values.items(), b.values.items())
}

/// Whether these are the same outputs in the same order.
pub(crate) fn same_outs(a: &[Out], b: &[Out]) -> bool
    ensures { IsTrue result ↔ (a.now ≡ b.now) }
{
    if a.len() != b.len() {
        return false;
    }
    for i in 0..a.len() {
        if !same_out(&a[i], &b[i]) {
            return false;
        }
    }
    true
}

/// Whether these are the same numbers in the same order.
pub(crate) fn same_drops(a: &[u64], b: &[u64]) -> bool
    ensures { IsTrue result ↔ (a.now ≡ b.now) }
{
    a == b
}

/// Whether two faults are of one kind.
pub(crate) fn same_kind(a: Fault, b: Fault) -> bool
    ensures { IsTrue result ↔ (a ≡ b) }
{
    a == b
}

/// Whether two transitions of instances are one, and two faults of one kind.
pub(crate) fn same_fault(
    path: &Path,
    trans: u32,
    kind: Fault,
    other: &Path,
    number: u32,
    fault: Fault,
) -> bool
    ensures { IsTrue result ↔ ((path.now ≡ other.now) × (trans ≡ number) × (kind ≡ fault)) }
{
    path.items() == other.items() && trans == number && kind == fault
}
