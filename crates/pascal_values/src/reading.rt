//! Reading the text of a value.

ghost use Rattle.std.specs.Prelude.{ℕ, ◌≡◌, ◌<◌, ◌^◌, ◌+◌, ◌-◌, negsuc, codes};
ghost use Rattle.std.specs.Fmt.{decimal};
ghost use Rattle.pascal_values.specs.Reading.{IsReading};
ghost use Rattle.pascal_values.specs.Steps.{Stands, StandsWord, IsOther, IsNumber, IsItems, IsOrdinal};

use crate::digits::number;
use crate::failing::ValueError;
use crate::members::Members;
use crate::ordinals::{ordinals, rise};
use crate::value::Value;
use crate::words::{follows, is_printed, quoted};
use std::alloc::Global;

/// A value that was read, and the place after its text.
type Reading = Result<(Value, usize), ValueError>;

/// An integer without a sign.
pub(crate) fn read_natural(bytes: &[u8], at: usize, byte: u8) -> Reading
    requires stands { Stands bytes.now at byte }
    requires other { IsOther byte }
    ensures { (depth : ℕ) → IsReading depth bytes.now at result }
{
    match number(bytes, at, i64::MAX as u64) {
        Some((n, end)) => Ok((Value::Int(n as i64), end)),
        None => Err(ValueError::NoValue),
    }
}

pub(crate) fn read_negative(bytes: &[u8], at: usize) -> Reading
    requires { Stands bytes.now at 45 }
    ensures { (depth : ℕ) → IsReading depth bytes.now at result }
{
    match number(bytes, at + 1, i64::MAX as u64) {
        None => Err(ValueError::NoValue),
        Some((n, end)) => {
            if n == 0 {
                return Err(ValueError::NoValue);
            }
            Ok((Value::Int(negated(n)), end))
        }
    }
}

fn negated(n: u64) -> i64
    requires not_zero { 0 < n }
    requires fits { n < 2 ^ 63 }
    ensures { result ≡ negsuc (n - 1) }
{
    -(n as i64)
}

pub(crate) fn read_enum(bytes: &[u8], at: usize) -> Reading
    requires { Stands bytes.now at 35 }
    ensures { (depth : ℕ) → IsReading depth bytes.now at result }
{
    match number(bytes, at + 1, 4_294_967_295) {
        Some((n, end)) => Ok((Value::Enum(n as u32), end)),
        None => Err(ValueError::NoValue),
    }
}

pub(crate) fn read_true(bytes: &[u8], at: usize) -> Reading
    requires { Stands bytes.now at 116 }
    ensures { (depth : ℕ) → IsReading depth bytes.now at result }
{
    if follows(bytes, at, b"true") {
        Ok((Value::Bool(true), at + 4))
    } else {
        Err(ValueError::NoValue)
    }
}

pub(crate) fn read_false(bytes: &[u8], at: usize) -> Reading
    requires { Stands bytes.now at 102 }
    ensures { (depth : ℕ) → IsReading depth bytes.now at result }
{
    if follows(bytes, at, b"false") {
        Ok((Value::Bool(false), at + 5))
    } else {
        Err(ValueError::NoValue)
    }
}

/// A character in quotes.
pub(crate) fn read_quoted(bytes: &[u8], at: usize) -> Reading
    requires { Stands bytes.now at 39 }
    ensures { (depth : ℕ) → IsReading depth bytes.now at result }
{
    if follows(bytes, at, b"''''") {
        return Ok((Value::Char(b'\''), at + 4));
    }
    match quoted(bytes, at) {
        Some(c) => Ok((Value::Char(c), at + 3)),
        None => Err(ValueError::NoValue),
    }
}

/// A character by its code.
pub(crate) fn read_coded(bytes: &[u8], at: usize) -> Reading
    requires { Stands bytes.now at 99 }
    ensures { (depth : ℕ) → IsReading depth bytes.now at result }
{
    if !follows(bytes, at, b"chr(") {
        return Err(ValueError::NoValue);
    }
    match number(bytes, at + 4, 255) {
        Some((n, end)) => coded(bytes, at, n, end),
        None => Err(ValueError::NoValue),
    }
}

fn coded(bytes: &[u8], at: usize, n: u64, end: usize) -> Reading
    requires word { StandsWord bytes.now at (codes "chr(") }
    requires number { IsNumber 255 bytes.now (at + 4) n end }
    ensures { (depth : ℕ) → IsReading depth bytes.now at result }
{
    if is_printed(n as u8) {
        return Err(ValueError::NoValue);
    }
    if follows(bytes, end, b")") {
        Ok((Value::Char(n as u8), end + 1))
    } else {
        Err(ValueError::NoValue)
    }
}

pub(crate) fn read_set(alloc: Global, bytes: &[u8], at: usize) -> Reading
    requires { Stands bytes.now at 91 }
    ensures { (depth : ℕ) → IsReading depth bytes.now at result }
{
    if follows(bytes, at + 1, b"]") {
        return Ok((Value::Set(Members::none(alloc)), at + 2));
    }
    match ordinals(alloc, bytes, at + 1) {
        Ok((ordinals, end)) => as_set(bytes, at, ordinals, end),
        Err(error) => Err(error),
    }
}

/// The set of the ordinals, if they rise.
fn as_set(bytes: &[u8], at: usize, ordinals: Vec<u32>, end: usize) -> Reading
    requires bracket { Stands bytes.now at 91 }
    requires items { IsItems decimal IsOrdinal 93 bytes.now (at + 1) ordinals.items end }
    ensures { (depth : ℕ) → IsReading depth bytes.now at result }
{
    if rise(&ordinals) {
        Ok((Value::Set(Members::of(ordinals)), end))
    } else {
        Err(ValueError::NoValue)
    }
}
