//! The shape of a type.

ghost use Rattle.std.specs.Prelude.{◌≡◌, map, nat_abs, IfOk};
ghost use Rattle.estelle_model.specs.Types as spec;

use estelle_model::{Denoter, Host};
use estelle_tree::{Boxed, Items, Sequence};
use pascal_values::Shape;
use std::alloc::{AllocError, Global};

/// The ordinal of a value that is no integer.
fn ordinal(value: i64) -> Result<u32, AllocError>
    ensures { IfOk result (λ n. n ≡ nat_abs value) }
{
    match u32::try_from(value.unsigned_abs()) {
        Ok(n) => Ok(n),
        Err(_) => Err(AllocError),
    }
}

fn ordinal_shape(host: Host, low: i64, high: i64) -> Result<Shape, AllocError>
    ensures { IfOk result (λ shape. shape ≡ spec.ordinal_shape host low high) }
{
    match host {
        Host::Integer => Ok(Shape::Int { low, high }),
        Host::Boolean => Ok(Shape::Bool {
            low: ordinal(low)?,
            high: ordinal(high)?,
        }),
        Host::Char => Ok(Shape::Char {
            low: ordinal(low)?,
            high: ordinal(high)?,
        }),
        Host::Enumeration { .. } => Ok(Shape::Enum {
            low: ordinal(low)?,
            high: ordinal(high)?,
        }),
    }
}

/// The shape of a type. Bounds that no shape can have are want of memory.
#[cycle(shape)]
pub fn shape_of(alloc: Global, denoter: &Denoter) -> Result<Shape, AllocError>
    ensures { IfOk result (λ shape. shape ≡ spec.shape_of denoter.now) }
{
    match denoter {
        Denoter::Ordinal { host, low, high } => ordinal_shape(*host, *low, *high),
        Denoter::Set { low, high, .. } => Ok(Shape::Set {
            low: ordinal(*low)?,
            high: ordinal(*high)?,
        }),
        Denoter::Array { low, high, item } => Ok(Shape::Array {
            low: *low,
            high: *high,
            item: Boxed::new(alloc, shape_of(alloc, item.get())?)?,
        }),
        Denoter::Fields(fields) => Ok(Shape::Fields(shapes_of(alloc, fields.items())?)),
    }
}

#[cycle(shape)]
fn shapes_of(alloc: Global, denoters: &[Denoter]) -> Result<Items<Shape>, AllocError>
    ensures { IfOk result (λ shapes. shapes ≡ map spec.shape_of denoters.now) }
{
    let mut shapes = Items::new(alloc);
    for denoter in denoters {
        shapes.push(shape_of(alloc, denoter)?)?;
    }
    Ok(shapes)
}
