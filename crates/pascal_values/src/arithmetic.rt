//! The operations on integers, which lie from `-MAXINT` to `MAXINT` (ISO 7185, 6.7.2.2). None takes memory.

ghost use Rattle.std.specs.Prelude.{◌≡◌};
ghost use Rattle.pascal_values.specs.Integers.{sum_of, difference_of, is_integer, product_of, quotient_of, remainder_of};

use crate::fault::Fault;

/// The greatest integer.
pub const MAXINT: i64 = i64::MAX;

/// Whether a number of 64 bits is an integer: the least such number is none.
fn is_whole(n: i64) -> bool
    ensures { result ≡ is_integer n }
{
    n > i64::MIN
}

/// `a + b`. `Overflow` exactly where it is no integer.
pub fn add(a: i64, b: i64) -> Result<i64, Fault>
    ensures { result ≡ sum_of a b }
{
    match a.checked_add(b) {
        Some(n) if is_whole(n) => Ok(n),
        _ => Err(Fault::Overflow),
    }
}

/// `a - b`. `Overflow` exactly where it is no integer.
pub fn sub(a: i64, b: i64) -> Result<i64, Fault>
    ensures { result ≡ difference_of a b }
{
    match a.checked_sub(b) {
        Some(n) if is_whole(n) => Ok(n),
        _ => Err(Fault::Overflow),
    }
}

/// `a * b`. `Overflow` exactly where it is no integer.
pub fn mul(a: i64, b: i64) -> Result<i64, Fault>
    ensures { result ≡ product_of a b }
{
    match a.checked_mul(b) {
        Some(n) if is_whole(n) => Ok(n),
        _ => Err(Fault::Overflow),
    }
}

/// `a div b`, truncated toward zero. `DivideByZero` exactly where `b` is 0; where `a` is no integer
/// and the quotient is none either, `Overflow`.
pub fn divide(a: i64, b: i64) -> Result<i64, Fault>
    ensures { result ≡ quotient_of a b }
{
    if b == 0 {
        return Err(Fault::DivideByZero);
    }
    match a.checked_div(b) {
        Some(n) if is_whole(n) => Ok(n),
        _ => Err(Fault::Overflow),
    }
}

/// `a mod b`, which lies in `0..b-1`. `ModNotPositive` exactly where `b <= 0`.
pub fn modulo(a: i64, b: i64) -> Result<i64, Fault>
    ensures { result ≡ remainder_of a b }
{
    if b <= 0 {
        return Err(Fault::ModNotPositive);
    }
    Ok(a.rem_euclid(b))
}
