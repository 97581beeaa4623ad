//! Reading any value: arrays and records, and what stands in them.

ghost use Rattle.std.specs.Prelude.{◌≡◌, ◌<◌, ◌-◌, ◌^◌, IsSome};
ghost use Rattle.pascal_values.specs.Reading.{IsReading};
ghost use Rattle.pascal_values.specs.Steps.{Stands, IsPartReading, ArePartsRead, IsCloser, separated_of};

use crate::failing::ValueError;
use crate::reading::{
    read_coded, read_enum, read_false, read_natural, read_negative, read_quoted, read_set,
    read_true,
};
use crate::value::{Value, Values};
use crate::words::separator_at;
use estelle_lists::SequenceMut;
use std::alloc::Global;

/// How deep arrays and records may nest in a text.
const DEPTH: u32 = 200;

/// The value with the longest text that begins at a place, and the place after that text. `NoValue`
/// exactly where no text of a value begins there. Arrays and records nest at most 200 deep.
pub fn read_value(alloc: Global, bytes: &[u8], at: usize) -> Result<(Value, usize), ValueError>
    ensures { IsReading 200 bytes.now at result }
{
    read_at(alloc, bytes, at, DEPTH)
}

#[cycle(read)]
fn read_at(alloc: Global, bytes: &[u8], at: usize, depth: u32) -> Result<(Value, usize), ValueError>
    ensures { IsReading depth bytes.now at result }
{
    if at >= bytes.len() {
        return Err(ValueError::NoValue);
    }
    let byte = bytes[at];
    match byte {
        b'?' => Ok((Value::Unset, at + 1)),
        b'-' => read_negative(bytes, at),
        b't' => read_true(bytes, at),
        b'f' => read_false(bytes, at),
        b'\'' => read_quoted(bytes, at),
        b'c' => read_coded(bytes, at),
        b'#' => read_enum(bytes, at),
        b'[' => read_set(alloc, bytes, at),
        b'(' => read_array(alloc, bytes, at, depth),
        b'{' => read_fields(alloc, bytes, at, depth),
        _ => read_natural(bytes, at, byte),
    }
}

#[cycle(read)]
fn read_array(
    alloc: Global,
    bytes: &[u8],
    at: usize,
    depth: u32,
) -> Result<(Value, usize), ValueError>
    requires { Stands bytes.now at 40 }
    ensures { IsReading depth bytes.now at result }
{
    if depth == 0 {
        return Err(ValueError::NoValue);
    }
    match read_parts(alloc, bytes, at + 1, depth - 1, b')') {
        Ok((parts, end)) => Ok((Value::Array(parts), end)),
        Err(error) => Err(error),
    }
}

#[cycle(read)]
fn read_fields(
    alloc: Global,
    bytes: &[u8],
    at: usize,
    depth: u32,
) -> Result<(Value, usize), ValueError>
    requires { Stands bytes.now at 123 }
    ensures { IsReading depth bytes.now at result }
{
    if depth == 0 {
        return Err(ValueError::NoValue);
    }
    match read_parts(alloc, bytes, at + 1, depth - 1, b'}') {
        Ok((parts, end)) => Ok((Value::Fields(parts), end)),
        Err(error) => Err(error),
    }
}

/// The parts up to the bracket that closes, one at least, and the place after the bracket.
#[cycle(read)]
fn read_parts(
    alloc: Global,
    bytes: &[u8],
    at: usize,
    depth: u32,
    close: u8,
) -> Result<(Values, usize), ValueError>
    requires { IsCloser close }
    ensures { ArePartsRead depth close bytes.now at result }
{
    let mut parts = Values::none(alloc);
    let mut place = at;
    'items: loop {
        match read_part(alloc, bytes, place, depth, close) {
            Err(error) => return Err(error),
            Ok((part, next, last)) => {
                if parts.push(part).is_err() {
                    return Err(ValueError::Memory);
                }
                if last {
                    return Ok((parts, next));
                }
                place = next;
            }
        }
    }
}

/// A part, the place after the comma or bracket behind it, and whether that is the bracket.
#[cycle(read)]
fn read_part(
    alloc: Global,
    bytes: &[u8],
    at: usize,
    depth: u32,
    close: u8,
) -> Result<(Value, usize, bool), ValueError>
    requires { IsCloser close }
    ensures { IsPartReading depth close bytes.now at result }
{
    match read_at(alloc, bytes, at, depth) {
        Ok((part, end)) => separated(part, end, separator_at(bytes, end, close)),
        Err(error) => Err(error),
    }
}

/// The part with what stands behind it, if that is a comma or the bracket.
fn separated(
    part: Value,
    end: usize,
    separator: Option<bool>,
) -> Result<(Value, usize, bool), ValueError>
    requires { IsSome separator → end < 2 ^ 64 - 1 }
    ensures { result ≡ separated_of part end separator }
{
    match separator {
        Some(last) => Ok((part, end + 1, last)),
        None => Err(ValueError::NoValue),
    }
}
