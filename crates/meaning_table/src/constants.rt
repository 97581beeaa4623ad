//! Constants (ISO 7185, 6.3).

ghost use Rattle.std.specs.Prelude.{◌≡◌, IfOk, option_map, ok_or};
ghost use Rattle.std.specs.Result.{result_ok};
ghost use Rattle.pascal_values.specs.declared.value.Value.TheVariants as pascal;
ghost use Rattle.estelle_model.specs.Stops.{Broken};
ghost use Rattle.estelle_model.specs.Operators.{◌>>>◌, signed};
ghost use Rattle.estelle_model.specs.Types.{ordinal_of};
ghost use Rattle.estelle_model.specs.Constants as constants;
ghost use Rattle.estelle_model.specs.Denoted as denoted;
ghost use Rattle.meaning_table.specs.Known.{meanings_of};

use crate::table::Table;
use estelle_model::{Host, Meaning};
use estelle_tree::{Const, Sign};
use pascal_values::{Value, copy, sub};
use std::alloc::{AllocError, Global};

/// The ordinal of a value of an ordinal type.
pub fn ordinal_of(value: &Value) -> Option<i64>
    ensures { result ≡ result_ok (ordinal_of value.now) }
{
    match value {
        Value::Int(n) => Some(*n),
        Value::Bool(b) => Some(i64::from(*b)),
        Value::Char(c) => Some(i64::from(*c)),
        Value::Enum(n) => Some(i64::from(*n)),
        _ => None,
    }
}

/// A value with a sign before it: the integer, if it is one.
fn signed_int(sign: Sign, value: &Value) -> Option<i64>
    ensures { option_map pascal.Int result ≡ result_ok (signed sign value.now) }
{
    match (sign, value) {
        (Sign::Plus, Value::Int(n)) => Some(*n),
        (Sign::Minus, Value::Int(n)) => match sub(0, *n) {
            Ok(negated) => Some(negated),
            Err(_) => None,
        },
        _ => None,
    }
}

/// The ordinal of a value with or without a sign before it.
pub fn ordinal_by_sign(sign: Option<Sign>, value: &Value) -> Option<i64>
    ensures { result ≡ result_ok (constants.by_sign sign value.now >>> ordinal_of) }
{
    match sign {
        None => ordinal_of(value),
        Some(sign) => signed_int(sign, value),
    }
}

/// The ordinal of a named constant, with or without a sign before the name.
pub fn ordinal_named(meaning: &Meaning, sign: Option<Sign>) -> Option<i64>
    ensures { result ≡ result_ok (constants.constant_named meaning.now >>> constants.by_sign sign >>> ordinal_of) }
{
    match meaning {
        Meaning::Constant { value, .. } => ordinal_by_sign(sign, value),
        _ => None,
    }
}

/// The ordinal of a constant.
pub fn ordinal_of_const(table: &Table, constant: &Const) -> Option<i64>
    ensures { result ≡ result_ok (constants.constant_of (meanings_of table.now) constant.now >>> ordinal_of) }
{
    match constant {
        Const::Number { sign, value, .. } => ordinal_by_sign(*sign, &Value::Int(*value)),
        Const::Name { sign, name, .. } => ordinal_named(table.meaning(name), *sign),
        Const::Char { value, .. } => Some(i64::from(*value)),
    }
}

/// A constant as a bound of a type.
pub fn bound(table: &Table, constant: &Const) -> i64
    ensures { result ≡ denoted.bound (meanings_of table.now) constant.now }
{
    ordinal_of_const(table, constant).unwrap_or(0)
}

/// The host type of a constant.
pub fn host_of_const(table: &Table, constant: &Const) -> Host
    ensures { result ≡ constants.host_of_const (meanings_of table.now) constant.now }
{
    match constant {
        Const::Number { .. } => Host::Integer,
        Const::Name { name, .. } => match table.meaning(name) {
            Meaning::Constant { host, .. } => *host,
            _ => Host::Integer,
        },
        Const::Char { .. } => Host::Char,
    }
}

fn defined_int<'a>(host: Host, n: Option<i64>) -> Meaning<'a>
    ensures { result ≡ constants.defined host (ok_or (option_map pascal.Int n) Broken) }
{
    match n {
        Some(n) => Meaning::Constant {
            value: Value::Int(n),
            host,
        },
        None => Meaning::Other,
    }
}

/// A value with or without a sign before it, as a constant of a host type.
fn defined<'a>(
    alloc: Global,
    host: Host,
    sign: Option<Sign>,
    value: &Value,
) -> Result<Meaning<'a>, AllocError>
    ensures { IfOk result (λ meaning. meaning ≡ constants.defined host (constants.by_sign sign value.now)) }
{
    match sign {
        None => Ok(Meaning::Constant {
            value: copy(alloc, value)?,
            host,
        }),
        Some(sign) => Ok(defined_int(host, signed_int(sign, value))),
    }
}

/// What a name means, with or without a sign before it, as a constant.
fn defined_as<'a>(
    alloc: Global,
    meaning: &Meaning,
    sign: Option<Sign>,
) -> Result<Meaning<'a>, AllocError>
    ensures { IfOk result (λ m. m ≡ constants.defined (constants.host_named meaning.now) (constants.constant_named meaning.now >>> constants.by_sign sign)) }
{
    match meaning {
        Meaning::Constant { value, host } => defined(alloc, *host, sign, value),
        _ => Ok(Meaning::Other),
    }
}

/// What the name of a constant definition means.
pub fn const_meaning<'a>(table: &Table<'a>, constant: &Const) -> Result<Meaning<'a>, AllocError>
    ensures { IfOk result (λ meaning. meaning ≡ constants.const_meaning (meanings_of table.now) constant.now) }
{
    match constant {
        Const::Number { sign, value, .. } => {
            defined(table.alloc, Host::Integer, *sign, &Value::Int(*value))
        }
        Const::Name { sign, name, .. } => defined_as(table.alloc, table.meaning(name), *sign),
        Const::Char { value, .. } => Ok(Meaning::Constant {
            value: Value::Char(*value),
            host: Host::Char,
        }),
    }
}
