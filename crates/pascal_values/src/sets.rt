//! The operations on sets (ISO 7185, 6.7.2.4).

ghost use Rattle.std.specs.Prelude.{◌≡◌, ◌≤◌, IfOk};
ghost use Rattle.pascal_values.specs.Sets.{IsSet, is_member, is_subset, union, intersection, difference, interval};

use crate::members::Members;
use std::alloc::{AllocError, Global};

/// `n in a`. It takes no memory.
pub fn has(a: &Members, n: u32) -> bool
    ensures { result ≡ is_member n a.now }
{
    contains(a.items(), n)
}

/// Whether rising ordinals have one among them.
fn contains(ordinals: &[u32], n: u32) -> bool
    requires { IsSet ordinals.now }
    ensures { result ≡ is_member n ordinals.now }
{
    ordinals.binary_search(&n).is_ok()
}

/// Whether each member of `a` is in `b`.
pub(crate) fn is_within(a: &Members, b: &Members) -> bool
    ensures { result ≡ is_subset a.now b.now }
{
    for n in a.items() {
        if !has(b, *n) {
            return false;
        }
    }
    true
}

/// `a + b`.
pub fn unite(alloc: Global, a: &Members, b: &Members) -> Result<Members, AllocError>
    ensures { IfOk result (λ set. set ≡ union a.now b.now) }
{
    Ok(Members::of(merged(alloc, a.items(), b.items())?))
}

/// The ordinals of two sets, rising.
fn merged(alloc: Global, a: &[u32], b: &[u32]) -> Result<Vec<u32>, AllocError>
    requires a_rising { IsSet a.now }
    requires b_rising { IsSet b.now }
    ensures { IfOk result (λ set. set.items ≡ union a.now b.now) }
{
    let mut ordinals = Vec::new(alloc);
    let mut i = 0;
    let mut j = 0;
    while i < a.len() && j < b.len() {
        let m = a[i];
        let n = b[j];
        ordinals.push(m.min(n))?;
        if m <= n {
            i += 1;
        }
        if n <= m {
            j += 1;
        }
    }
    ordinals.extend_from_slice(&a[i..])?;
    ordinals.extend_from_slice(&b[j..])?;
    Ok(ordinals)
}

/// `a * b`.
pub fn meet(alloc: Global, a: &Members, b: &Members) -> Result<Members, AllocError>
    ensures { IfOk result (λ set. set ≡ intersection a.now b.now) }
{
    let mut ordinals = Vec::new(alloc);
    for n in a.items() {
        if has(b, *n) {
            ordinals.push(*n)?;
        }
    }
    Ok(Members::of(ordinals))
}

/// `a - b`.
pub fn minus(alloc: Global, a: &Members, b: &Members) -> Result<Members, AllocError>
    ensures { IfOk result (λ set. set ≡ difference a.now b.now) }
{
    let mut ordinals = Vec::new(alloc);
    for n in a.items() {
        if !has(b, *n) {
            ordinals.push(*n)?;
        }
    }
    Ok(Members::of(ordinals))
}

/// The ordinals from `low` to `high`, none where `low > high`.
pub fn span(alloc: Global, low: u32, high: u32) -> Result<Members, AllocError>
    requires { high ≤ 255 }
    ensures { IfOk result (λ set. set ≡ interval low high) }
{
    let mut ordinals = Vec::new(alloc);
    for n in low..high + 1 {
        ordinals.push(n)?;
    }
    Ok(Members::of(ordinals))
}
