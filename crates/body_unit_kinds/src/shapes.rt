//! Shapes that are one, and shapes of types. No call takes memory.

ghost use Rattle.std.specs.Prelude.{◌≡◌, true, map, nat_abs};
ghost use Rattle.estelle_model.specs.Types.{shape_of, ordinal_shape};

use estelle_model::{Denoter, Host};
use estelle_tree::Sequence;
use pascal_values::Shape;

/// Whether two shapes are one, part by part.
#[cycle(same)]
pub fn same_shape(a: &Shape, b: &Shape) -> bool
    ensures { result ≡ true → a.now ≡ b.now }
{
    match a {
        Shape::Int { low, high } => match b {
            Shape::Int {
                low: least,
                high: most,
            } => *low == *least && *high == *most,
            _ => false,
        },
        Shape::Bool { low, high } => match b {
            Shape::Bool {
                low: least,
                high: most,
            } => *low == *least && *high == *most,
            _ => false,
        },
        Shape::Char { low, high } => match b {
            Shape::Char {
                low: least,
                high: most,
            } => *low == *least && *high == *most,
            _ => false,
        },
        Shape::Enum { low, high } => match b {
            Shape::Enum {
                low: least,
                high: most,
            } => *low == *least && *high == *most,
            _ => false,
        },
        Shape::Set { low, high } => match b {
            Shape::Set {
                low: least,
                high: most,
            } => *low == *least && *high == *most,
            _ => false,
        },
        Shape::Array { low, high, item } => match b {
            Shape::Array {
                low: least,
                high: most,
                item: other,
            } => *low == *least && *high == *most && same_shape(item.get(), other.get()),
            _ => false,
        },
        Shape::Fields(fields) => match b {
            Shape::Fields(others) => same_shapes(fields.items(), others.items()),
            _ => false,
        },
    }
}

#[cycle(same)]
fn same_shapes(a: &[Shape], b: &[Shape]) -> bool
    ensures { result ≡ true → a.now ≡ b.now }
{
    if a.len() != b.len() {
        return false;
    }
    for i in 0..a.len() {
        if !same_shape(&a[i], &b[i]) {
            return false;
        }
    }
    true
}

fn is_ordinal_of(shape: &Shape, host: Host, low: i64, high: i64) -> bool
    ensures { result ≡ true → shape.now ≡ ordinal_shape host low high }
{
    match host {
        Host::Integer => match shape {
            Shape::Int {
                low: least,
                high: most,
            } => *least == low && *most == high,
            _ => false,
        },
        Host::Boolean => match shape {
            Shape::Bool {
                low: least,
                high: most,
            } => is_bound(*least, low) && is_bound(*most, high),
            _ => false,
        },
        Host::Char => match shape {
            Shape::Char {
                low: least,
                high: most,
            } => is_bound(*least, low) && is_bound(*most, high),
            _ => false,
        },
        Host::Enumeration { .. } => match shape {
            Shape::Enum {
                low: least,
                high: most,
            } => is_bound(*least, low) && is_bound(*most, high),
            _ => false,
        },
    }
}

fn is_bound(ordinal: u32, bound: i64) -> bool
    ensures { result ≡ true → ordinal ≡ nat_abs bound }
{
    u64::from(ordinal) == bound.unsigned_abs()
}

/// Whether a shape is that of a type.
#[cycle(typed)]
pub fn is_shape_of(shape: &Shape, denoter: &Denoter) -> bool
    ensures { result ≡ true → shape.now ≡ shape_of denoter.now }
{
    match denoter {
        Denoter::Ordinal { host, low, high } => is_ordinal_of(shape, *host, *low, *high),
        Denoter::Set { low, high, .. } => match shape {
            Shape::Set {
                low: least,
                high: most,
            } => is_bound(*least, *low) && is_bound(*most, *high),
            _ => false,
        },
        Denoter::Array { low, high, item } => match shape {
            Shape::Array {
                low: least,
                high: most,
                item: part,
            } => *least == *low && *most == *high && is_shape_of(part.get(), item.get()),
            _ => false,
        },
        Denoter::Fields(denoters) => match shape {
            Shape::Fields(fields) => are_shapes_of(fields.items(), denoters.items()),
            _ => false,
        },
    }
}

#[cycle(typed)]
fn are_shapes_of(shapes: &[Shape], denoters: &[Denoter]) -> bool
    ensures { result ≡ true → shapes.now ≡ map shape_of denoters.now }
{
    if shapes.len() != denoters.len() {
        return false;
    }
    for i in 0..shapes.len() {
        if !is_shape_of(&shapes[i], &denoters[i]) {
            return false;
        }
    }
    true
}
