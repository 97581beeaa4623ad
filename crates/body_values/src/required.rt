//! The required functions (ISO 7185, 6.6.6).

ghost use Rattle.std.specs.Prelude.{◌≡◌, Ok};
ghost use Rattle.pascal_values.specs.Integers.{product_of};
ghost use Rattle.pascal_values.specs.declared.value.Value.TheVariants as value;
ghost use Rattle.estelle_model.specs.Stops.{stopping};
ghost use Rattle.estelle_model.specs.Operators.{◌>>>◌, an_int, required_host, required_value, stepped, host_told, succeeding, preceding, in_host, is_odd, magnitude, beyond};
ghost use Rattle.body_values.specs.Gives.{Gives};

use crate::arithmetic::an_int;
use crate::fitting::fits_host;
use crate::ordinals::{int_of, ordinal_of};
use crate::stop::Stop;
use estelle_model::{Host, Required, has_value, value_at};
use pascal_values::{Fault, Value, modulo, mul, sub};

/// The host type of what a required function gives of an argument with this host type.
pub fn required_host(function: Required, host: Host) -> Host
    ensures { result ≡ required_host function host }
{
    match function {
        Required::Odd => Host::Boolean,
        Required::Succ | Required::Pred => host,
        Required::Chr => Host::Char,
        _ => Host::Integer,
    }
}

/// What a required function gives of an argument whose type has this host.
pub fn required_value(function: Required, host: Host, value: &Value) -> Result<Value, Stop>
    ensures { Gives (required_value function host value.now) result }
{
    match function {
        Required::Abs => absolute(int_of(value)?),
        Required::Sqr => square(int_of(value)?),
        Required::Odd => odd(int_of(value)?),
        Required::Succ => in_host(host, succeeding(value)?),
        Required::Pred => in_host(host, preceding(value)?),
        Required::Ord => Ok(Value::Int(ordinal_of(value)?)),
        Required::Chr => stepped(Host::Char, int_of(value)?),
    }
}

/// `abs`
fn absolute(n: i64) -> Result<Value, Stop>
    ensures { Gives (an_int (magnitude n)) result }
{
    if n >= 0 {
        Ok(Value::Int(n))
    } else {
        an_int(sub(0, n))
    }
}

/// `sqr`
fn square(n: i64) -> Result<Value, Stop>
    ensures { Gives (an_int (product_of n n)) result }
{
    an_int(mul(n, n))
}

/// `odd`
fn odd(n: i64) -> Result<Value, Stop>
    ensures { Gives (stopping (is_odd n) >>> λ b. Ok (value.Bool b)) result }
{
    match modulo(n, 2) {
        Ok(rest) => Ok(Value::Bool(rest == 1)),
        Err(fault) => Err(Stop::Fault(fault)),
    }
}

/// The value of a host type with an ordinal. Beyond its values, `Overflow` of integers and else `Range`.
fn stepped(host: Host, n: i64) -> Result<Value, Stop>
    ensures { Gives (stepped host n) result }
{
    if has_value(host, n) {
        Ok(value_at(host, n))
    } else {
        Err(Stop::Fault(beyond(host)))
    }
}

fn beyond(host: Host) -> Fault
    ensures { result ≡ beyond host }
{
    match host {
        Host::Integer => Fault::Overflow,
        _ => Fault::Range,
    }
}

/// The host of a value; one of an enumeration does not tell the last of its type.
fn host_told(value: &Value) -> Host
    ensures { result ≡ host_told value.now }
{
    match value {
        Value::Bool(_) => Host::Boolean,
        Value::Char(_) => Host::Char,
        Value::Enum(_) => Host::Enumeration { last: u32::MAX },
        _ => Host::Integer,
    }
}

/// `succ`, by the value alone.
pub fn succeeding(value: &Value) -> Result<Value, Stop>
    ensures { Gives (succeeding value.now) result }
{
    let host = host_told(value);
    match ordinal_of(value)?.checked_add(1) {
        Some(next) => stepped(host, next),
        None => Err(Stop::Fault(beyond(host))),
    }
}

/// `pred`, by the value alone.
pub fn preceding(value: &Value) -> Result<Value, Stop>
    ensures { Gives (preceding value.now) result }
{
    let host = host_told(value);
    match ordinal_of(value)?.checked_sub(1) {
        Some(before) => stepped(host, before),
        None => Err(Stop::Fault(beyond(host))),
    }
}

/// A value of an enumeration is tested against its type.
fn in_host(host: Host, value: Value) -> Result<Value, Stop>
    ensures { Gives (in_host host value) result }
{
    match host {
        Host::Enumeration { last: _ } => match fits_host(host, &value) {
            Ok(()) => Ok(value),
            Err(fault) => Err(Stop::Fault(fault)),
        },
        _ => Ok(value),
    }
}
