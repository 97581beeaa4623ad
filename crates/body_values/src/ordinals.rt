//! Operands as ordinals, and ordinals as values (ISO 7185, 6.4.2).

ghost use Rattle.std.specs.Prelude.{Some};
ghost use Rattle.estelle_model.specs.Types.{ordinal_of, value_in};
ghost use Rattle.estelle_model.specs.Operators.{int_of, bool_of};
ghost use Rattle.estelle_model.specs.Expressions.{bound_of, selector_of};
ghost use Rattle.estelle_model.specs.Places.{set_value};
ghost use Rattle.body_values.specs.Gives.{Gives};

use crate::fitting::fits_host;
use crate::stop::Stop;
use estelle_model::{Host, has_value, value_at};
use pascal_values::{Fault, Value};

/// The integer that an operand is.
pub fn int_of(value: &Value) -> Result<i64, Stop>
    ensures { Gives (int_of value.now) result }
{
    match value {
        Value::Int(n) => Ok(*n),
        _ => Err(Stop::Broken),
    }
}

/// The truth value that an operand is.
pub fn bool_of(value: &Value) -> Result<bool, Stop>
    ensures { Gives (bool_of value.now) result }
{
    match value {
        Value::Bool(b) => Ok(*b),
        _ => Err(Stop::Broken),
    }
}

/// The ordinal of an operand.
pub fn ordinal_of(value: &Value) -> Result<i64, Stop>
    ensures { Gives (ordinal_of value.now) result }
{
    match value {
        Value::Int(n) => Ok(*n),
        Value::Bool(b) => Ok(i64::from(*b)),
        Value::Char(n) => Ok(i64::from(*n)),
        Value::Enum(n) => Ok(i64::from(*n)),
        _ => Err(Stop::Broken),
    }
}

/// A value that is set, which of an array or a record its parts need not be.
pub fn set_value(value: Value) -> Result<Value, Stop>
    ensures { Gives (set_value (Some value)) result }
{
    if matches!(&value, Value::Unset) {
        return Err(Stop::Fault(Fault::Unset));
    }
    Ok(value)
}

/// The value of a host type with an ordinal, if there is one.
pub fn value_in(host: Host, n: i64) -> Result<Value, Stop>
    ensures { Gives (value_in host n) result }
{
    if has_value(host, n) {
        Ok(value_at(host, n))
    } else {
        Err(Stop::Fault(Fault::Range))
    }
}

/// The ordinal of a bound of `for`, which is a value of the whole type of a host.
pub fn bound_of(host: Host, value: &Value) -> Result<i64, Stop>
    ensures { Gives (bound_of host value.now) result }
{
    match fits_host(host, value) {
        Ok(()) => ordinal_of(value),
        Err(fault) => Err(Stop::Fault(fault)),
    }
}

/// The ordinal of the selector of `case`, which is an integer.
pub fn selector_of(value: &Value) -> Result<i64, Stop>
    ensures { Gives (selector_of value.now) result }
{
    let ordinal = ordinal_of(value)?;
    if has_value(Host::Integer, ordinal) {
        Ok(ordinal)
    } else {
        Err(Stop::Fault(Fault::Range))
    }
}
