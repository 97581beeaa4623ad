//! What spells a shape.

ghost use Rattle.std.specs.Prelude.{◌≡◌, ◌++◌, pos, IfOk, OnOk};
ghost use Rattle.std.specs.List.{flat_map};
ghost use Rattle.type_shapes.specs.Spelling as spec;

use estelle_tree::Sequence;
use pascal_values::Shape;
use std::alloc::{AllocError, Global};

fn sign(value: i64) -> u64
    ensures { result ≡ spec.sign value }
{
    if value < 0 { 1 } else { 0 }
}

fn push_integer(value: i64, out: &mut Vec<u64>) -> Result<(), AllocError>
    ensures { OnOk result (out.new.items ≡ out.old.items ++ spec.integer value) }
{
    out.push(sign(value))?;
    out.push(value.unsigned_abs())?;
    Ok(())
}

#[tactic(auto, unfolding(crate::specs::Spelling::kind))]
fn push_kind(kind: u64, low: i64, high: i64, out: &mut Vec<u64>) -> Result<(), AllocError>
    ensures { OnOk result (out.new.items ≡ out.old.items ++ spec.kind kind low high) }
{
    out.push(kind)?;
    push_integer(low, out)?;
    push_integer(high, out)
}

fn push_ordinals(kind: u64, low: u32, high: u32, out: &mut Vec<u64>) -> Result<(), AllocError>
    ensures { OnOk result (out.new.items ≡ out.old.items ++ spec.kind kind (pos low) (pos high)) }
{
    push_kind(kind, i64::from(low), i64::from(high), out)
}

fn push_count(count: usize, out: &mut Vec<u64>) -> Result<(), AllocError>
    ensures { OnOk result (out.new.items ≡ out.old.items ++ spec.kind 6 (pos count) (pos 0)) }
{
    match i64::try_from(count) {
        Ok(count) => push_kind(6, count, 0, out),
        Err(_) => Err(AllocError),
    }
}

#[cycle(spelling)]
fn push_spelling(shape: &Shape, out: &mut Vec<u64>) -> Result<(), AllocError>
    ensures { OnOk result (out.new.items ≡ out.old.items ++ spec.spelling shape.now) }
{
    match shape {
        Shape::Int { low, high } => push_kind(0, *low, *high, out),
        Shape::Bool { low, high } => push_ordinals(1, *low, *high, out),
        Shape::Char { low, high } => push_ordinals(2, *low, *high, out),
        Shape::Enum { low, high } => push_ordinals(3, *low, *high, out),
        Shape::Set { low, high } => push_ordinals(4, *low, *high, out),
        Shape::Array { low, high, item } => {
            push_spelling(item.get(), out)?;
            push_kind(5, *low, *high, out)
        }
        Shape::Fields(fields) => {
            let fields = fields.items();
            push_spellings(fields, out)?;
            push_count(fields.len(), out)
        }
    }
}

#[cycle(spelling)]
fn push_spellings(shapes: &[Shape], out: &mut Vec<u64>) -> Result<(), AllocError>
    ensures { OnOk result (out.new.items ≡ out.old.items ++ flat_map spec.spelling shapes.now) }
{
    for shape in shapes {
        push_spelling(shape, out)?;
    }
    Ok(())
}

/// The numbers that spell a shape.
pub fn spelling(alloc: Global, shape: &Shape) -> Result<Vec<u64>, AllocError>
    ensures { IfOk result (λ numbers. numbers.items ≡ spec.spelling shape.now) }
{
    let mut numbers = Vec::with_capacity(alloc, 8)?;
    push_spelling(shape, &mut numbers)?;
    Ok(numbers)
}
