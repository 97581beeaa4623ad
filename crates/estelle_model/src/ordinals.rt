//! Host types by their ordinals (ISO 7185, 6.4.2).

ghost use Rattle.std.specs.Prelude.{◌≡◌, true};
ghost use Rattle.pascal_values.specs.Integers.{is_between};
ghost use Rattle.estelle_model.specs.Types.{least, greatest, value_of};

use crate::denoter::Host;
use pascal_values::{MAXINT, Value};

/// The least ordinal of a host type.
pub fn least(host: Host) -> i64
    ensures { result ≡ least host }
{
    match host {
        Host::Integer => -MAXINT,
        _ => 0,
    }
}

/// The greatest ordinal of a host type.
pub fn greatest(host: Host) -> i64
    ensures { result ≡ greatest host }
{
    match host {
        Host::Integer => MAXINT,
        Host::Boolean => 1,
        Host::Char => 255,
        Host::Enumeration { last } => last as i64,
    }
}

/// Whether a host type has a value with the ordinal.
pub fn has_value(host: Host, ordinal: i64) -> bool
    ensures { result ≡ is_between (least host) (greatest host) ordinal }
{
    least(host) <= ordinal && ordinal <= greatest(host)
}

/// The value of a host type with an ordinal.
pub fn value_at(host: Host, ordinal: i64) -> Value
    requires { is_between (least host) (greatest host) ordinal ≡ true }
    ensures { result ≡ value_of host ordinal }
{
    match host {
        Host::Integer => Value::Int(ordinal),
        Host::Boolean => Value::Bool(ordinal.unsigned_abs() == 1),
        Host::Char => Value::Char(ordinal.unsigned_abs() as u8),
        Host::Enumeration { last: _ } => Value::Enum(ordinal.unsigned_abs() as u32),
    }
}
