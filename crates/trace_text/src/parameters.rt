//! Reading the values of an interaction.

ghost use Rattle.std.specs.List.{AllByRecursion};
ghost use Rattle.pascal_values.specs.Texts.{text, IsReadable};
ghost use Rattle.trace_text.specs.Fields.{IsReading, IsItem, AreItems, marked, listed, closed, values_line, Any};

use crate::error::Missing;
use crate::words::{mark_at, stands};
use estelle_tree::SequenceMut;
use pascal_values::{Value, ValueError, Values, read_value};
use std::alloc::Global;

/// A value with the byte behind it, and the place behind that. The byte is a comma, or the bracket that closes.
fn marked_value(alloc: Global, bytes: &[u8], at: usize) -> Result<((Value, bool), usize), Missing>
    ensures { IsReading (marked text 44 41) (IsItem IsReadable) Any bytes.now at result }
{
    match read_value(alloc, bytes, at) {
        Err(ValueError::Memory) => Err(Missing::Memory),
        Err(ValueError::NoValue) => Err(Missing::Absent),
        Ok((value, end)) => match mark_at(bytes, end, b',', b')') {
            Some(last) => Ok(((value, last), end + 1)),
            None => Err(Missing::Absent),
        },
    }
}

/// The values up to the bracket, one at least, and the place behind it.
fn values(alloc: Global, bytes: &[u8], at: usize) -> Result<(Values, usize), Missing>
    ensures { IsReading (listed text 44 41) (AreItems IsReadable) Any bytes.now at result }
{
    let mut values = Values::none(alloc);
    let mut place = at;
    'values: loop {
        match marked_value(alloc, bytes, place) {
            Err(missing) => return Err(missing),
            Ok((marked, next)) => {
                let (value, last) = marked;
                values.push(value)?;
                if last {
                    return Ok((values, next));
                }
                place = next;
            }
        }
    }
}

/// The values up to the bracket, one at least, with the end of the line behind it, and the place behind that.
fn closed_values(alloc: Global, bytes: &[u8], at: usize) -> Result<(Values, usize), Missing>
    ensures { IsReading (closed 10 (listed text 44 41)) (AreItems IsReadable) Any bytes.now at result }
{
    match values(alloc, bytes, at) {
        Err(missing) => Err(missing),
        Ok((values, end)) => {
            if stands(bytes, end, b'\n') {
                Ok((values, end + 1))
            } else {
                Err(Missing::Absent)
            }
        }
    }
}

/// The values of an interaction up to the end of the line, and the place behind it.
pub fn parameters(alloc: Global, bytes: &[u8], at: usize) -> Result<(Values, usize), Missing>
    ensures { IsReading values_line (AllByRecursion IsReadable) Any bytes.now at result }
{
    if stands(bytes, at, b'\n') {
        return Ok((Values::none(alloc), at + 1));
    }
    if stands(bytes, at, b'(') {
        return closed_values(alloc, bytes, at + 1);
    }
    Err(Missing::Absent)
}
