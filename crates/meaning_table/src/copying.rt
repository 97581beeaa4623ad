//! A type as a part of another is a copy of it.

ghost use Rattle.std.specs.Prelude.{◌≡◌, ◌++◌, replicate, IfOk, OnOk};

use estelle_model::Denoter;
use estelle_tree::{Boxed, Items, Sequence};
use std::alloc::{AllocError, Global};

#[cycle(copy)]
pub fn copy(alloc: Global, denoter: &Denoter) -> Result<Denoter, AllocError>
    ensures { IfOk result (λ d. d ≡ denoter.now) }
{
    match denoter {
        Denoter::Ordinal { host, low, high } => Ok(Denoter::Ordinal {
            host: *host,
            low: *low,
            high: *high,
        }),
        Denoter::Set { host, low, high } => Ok(Denoter::Set {
            host: *host,
            low: *low,
            high: *high,
        }),
        Denoter::Array { low, high, item } => Ok(Denoter::Array {
            low: *low,
            high: *high,
            item: Boxed::new(alloc, copy(alloc, item.get())?)?,
        }),
        Denoter::Fields(fields) => Ok(Denoter::Fields(copy_all(alloc, fields.items())?)),
    }
}

#[cycle(copy)]
fn copy_all(alloc: Global, denoters: &[Denoter]) -> Result<Items<Denoter>, AllocError>
    ensures { IfOk result (λ ds. ds ≡ denoters.now) }
{
    let mut copies = Items::new(alloc);
    for denoter in denoters {
        copies.push(copy(alloc, denoter)?)?;
    }
    Ok(copies)
}

fn push_copies(
    alloc: Global,
    denoter: &Denoter,
    count: usize,
    out: &mut Items<Denoter>,
) -> Result<(), AllocError>
    ensures { OnOk result (out.new ≡ out.old ++ replicate count denoter.now) }
{
    for _ in 0..count {
        out.push(copy(alloc, denoter)?)?;
    }
    Ok(())
}

/// As many times as there are names of the type, itself the last.
pub fn push_repeated(
    alloc: Global,
    denoter: Denoter,
    count: usize,
    out: &mut Items<Denoter>,
) -> Result<(), AllocError>
    ensures { OnOk result (out.new ≡ out.old ++ replicate count denoter) }
{
    if count == 0 {
        return Ok(());
    }
    push_copies(alloc, &denoter, count - 1, out)?;
    out.push(denoter)
}
