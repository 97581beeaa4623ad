//! Writing the text of a value.

ghost use Rattle.std.specs.Prelude.{◌≡◌, ◌<◌, ◌^◌, ◌∷◌, [], ◌++◌, OnOk, OnErr, map};
ghost use Rattle.std.specs.Fmt.{decimal, signed_decimal};
ghost use Rattle.std.specs.List.{join_with_byte};
ghost use Rattle.pascal_values.specs.Texts.{text, char_text, enclosed, comma_before, Extends};

use crate::value::Value;
use estelle_lists::Sequence;
use std::alloc::AllocError;

/// Appends the text of a value: an integer in decimal, `true` or `false`, a character as `'x'` or by
/// its code as `chr(7)`, a value of an enumeration as `#3`, a set as `[1,3,4]`, an array as `(1,2)`,
/// a record as `{1,true}`, and `?` where nothing is set.
pub fn write_value(value: &Value, into: &mut Vec<u8>) -> Result<(), AllocError>
    ensures ok { OnOk result (into.new.items ≡ into.old.items ++ text value.now) }
    ensures err { OnErr result (into.new.items ≡ into.old.items) }
{
    let before = into.len();
    match write(value, into) {
        Ok(()) => Ok(()),
        Err(error) => {
            into.truncate(before);
            Err(error)
        }
    }
}

#[cycle(write)]
fn write(value: &Value, into: &mut Vec<u8>) -> Result<(), AllocError>
    ensures ok { OnOk result (into.new.items ≡ into.old.items ++ text value.now) }
    ensures err { OnErr result (Extends into.old.items into.new.items) }
{
    match value {
        Value::Unset => put(b"?", into),
        Value::Int(n) => write_integer(*n, into),
        Value::Bool(true) => put(b"true", into),
        Value::Bool(false) => put(b"false", into),
        Value::Char(c) => write_char(*c, into),
        Value::Enum(n) => {
            put(b"#", into)?;
            write_decimal(u64::from(*n), into)
        }
        Value::Set(members) => write_set(members.items(), into),
        Value::Array(parts) => {
            put(b"(", into)?;
            write_parts(parts.items(), into)?;
            put(b")", into)
        }
        Value::Fields(parts) => {
            put(b"{", into)?;
            write_parts(parts.items(), into)?;
            put(b"}", into)
        }
    }
}

#[cycle(write)]
fn write_parts(parts: &[Value], into: &mut Vec<u8>) -> Result<(), AllocError>
    ensures ok { OnOk result (into.new.items ≡ into.old.items ++ join_with_byte 44 (map text parts.now)) }
    ensures err { OnErr result (Extends into.old.items into.new.items) }
{
    for i in 0..parts.len() {
        put_comma(i, into)?;
        write(&parts[i], into)?;
    }
    Ok(())
}

fn write_set(ordinals: &[u32], into: &mut Vec<u8>) -> Result<(), AllocError>
    ensures ok { OnOk result (into.new.items ≡ into.old.items ++ enclosed 91 (map decimal ordinals.now) 93) }
    ensures err { OnErr result (Extends into.old.items into.new.items) }
{
    put(b"[", into)?;
    write_ordinals(ordinals, into)?;
    put(b"]", into)
}

fn write_ordinals(ordinals: &[u32], into: &mut Vec<u8>) -> Result<(), AllocError>
    ensures ok { OnOk result (into.new.items ≡ into.old.items ++ join_with_byte 44 (map decimal ordinals.now)) }
    ensures err { OnErr result (Extends into.old.items into.new.items) }
{
    for i in 0..ordinals.len() {
        put_comma(i, into)?;
        write_decimal(u64::from(ordinals[i]), into)?;
    }
    Ok(())
}

/// The comma before all parts but the first.
fn put_comma(place: usize, into: &mut Vec<u8>) -> Result<(), AllocError>
    ensures ok { OnOk result (into.new.items ≡ into.old.items ++ comma_before place) }
    ensures err { OnErr result (into.new.items ≡ into.old.items) }
{
    if place == 0 {
        return Ok(());
    }
    put(b",", into)
}

fn write_integer(n: i64, into: &mut Vec<u8>) -> Result<(), AllocError>
    ensures ok { OnOk result (into.new.items ≡ into.old.items ++ signed_decimal n) }
    ensures err { OnErr result (Extends into.old.items into.new.items) }
{
    if n < 0 {
        put(b"-", into)?;
        return write_decimal(n.unsigned_abs(), into);
    }
    write_decimal(n as u64, into)
}

fn write_char(c: u8, into: &mut Vec<u8>) -> Result<(), AllocError>
    ensures ok { OnOk result (into.new.items ≡ into.old.items ++ char_text c) }
    ensures err { OnErr result (Extends into.old.items into.new.items) }
{
    if c == b'\'' {
        return put(b"''''", into);
    }
    if b' ' <= c && c <= b'~' {
        return put(&[b'\'', c, b'\''], into);
    }
    put(b"chr(", into)?;
    write_decimal(u64::from(c), into)?;
    put(b")", into)
}

fn write_decimal(n: u64, into: &mut Vec<u8>) -> Result<(), AllocError>
    ensures ok { OnOk result (into.new.items ≡ into.old.items ++ decimal n) }
    ensures err { OnErr result (Extends into.old.items into.new.items) }
{
    let digit = b'0' + (n % 10) as u8;
    if n < 10 {
        return put(&[digit], into);
    }
    write_decimal(n / 10, into)?;
    put(&[digit], into)
}

fn put(bytes: &[u8], into: &mut Vec<u8>) -> Result<(), AllocError>
    ensures ok { OnOk result (into.new.items ≡ into.old.items ++ bytes.now) }
    ensures err { OnErr result (into.new.items ≡ into.old.items) }
{
    into.extend_from_slice(bytes)
}
