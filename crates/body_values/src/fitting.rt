//! Whether a value may be assigned to a variable of a type (ISO 7185, 6.4.6). No call takes memory, and none builds the type's shape.

ghost use Rattle.std.specs.Prelude.{◌≡◌, ◌==◌};
ghost use Rattle.std.specs.List.{list_all};
ghost use Rattle.pascal_values.specs.Shapes.{is_within, fit_of, item_count, has_ordinal};
ghost use Rattle.pascal_values.specs.declared.value.Shape.TheVariants as shape;
ghost use Rattle.estelle_model.specs.Types.{shape_of, ordinal_shape, whole, assignable};

use estelle_model::{Denoter, Host, greatest, least};
use estelle_tree::Sequence;
use pascal_values::{Fault, Value};

/// Whether a value may be assigned to a variable of a type. Of an ordinal type or a set, `Unset` exactly where the value is unset,
/// `Range` exactly where it is of another kind or lies outside the type; an array or a record has its type already.
pub fn fits(denoter: &Denoter, value: &Value) -> Result<(), Fault>
    ensures { result ≡ assignable (shape_of denoter.now) value.now }
{
    match denoter {
        Denoter::Ordinal { host, low, high } => fits_ordinal(*host, *low, *high, value),
        Denoter::Set { low, high, .. } => fits_set(low.unsigned_abs(), high.unsigned_abs(), value),
        Denoter::Array { .. } | Denoter::Fields(_) => Ok(()),
    }
}

/// The same of the whole type of a host.
pub fn fits_host(host: Host, value: &Value) -> Result<(), Fault>
    ensures { result ≡ assignable (shape_of (whole host)) value.now }
{
    fits_ordinal(host, least(host), greatest(host), value)
}

fn fits_ordinal(host: Host, low: i64, high: i64, value: &Value) -> Result<(), Fault>
    ensures { result ≡ fit_of (ordinal_shape host low high) value.now }
{
    if matches!(value, Value::Unset) {
        return Err(Fault::Unset);
    }
    if is_ordinal(host, low, high, value) {
        Ok(())
    } else {
        Err(Fault::Range)
    }
}

fn fits_set(low: u64, high: u64, value: &Value) -> Result<(), Fault>
    ensures { result ≡ fit_of (shape.Set low high) value.now }
{
    match value {
        Value::Unset => Err(Fault::Unset),
        Value::Set(members) => {
            if have_all(low, high, members.items()) {
                Ok(())
            } else {
                Err(Fault::Range)
            }
        }
        _ => Err(Fault::Range),
    }
}

/// Whether a value is of an ordinal type, and lies within its bounds.
pub(crate) fn is_ordinal(host: Host, low: i64, high: i64, value: &Value) -> bool
    ensures { result ≡ is_within (ordinal_shape host low high) value.now }
{
    match (host, value) {
        (_, Value::Unset) => true,
        (Host::Integer, Value::Int(n)) => low <= *n && *n <= high,
        (Host::Boolean, Value::Bool(b)) => {
            has(low.unsigned_abs(), high.unsigned_abs(), u64::from(*b))
        }
        (Host::Char, Value::Char(n)) => {
            has(low.unsigned_abs(), high.unsigned_abs(), u64::from(*n))
        }
        (Host::Enumeration { .. }, Value::Enum(n)) => {
            has(low.unsigned_abs(), high.unsigned_abs(), u64::from(*n))
        }
        _ => false,
    }
}

fn has(low: u64, high: u64, n: u64) -> bool
    ensures { result ≡ has_ordinal low high n }
{
    low <= n && n <= high
}

pub(crate) fn have_all(low: u64, high: u64, ordinals: &[u32]) -> bool
    ensures { result ≡ list_all (has_ordinal low high) ordinals.now }
{
    for n in ordinals {
        if !has(low, high, u64::from(*n)) {
            return false;
        }
    }
    true
}

/// Whether an array with these bounds has so many items.
pub fn is_count(low: i64, high: i64, count: usize) -> bool
    ensures { result ≡ (count == item_count low high) }
{
    if low > high {
        return count == 0;
    }
    count > 0 && (count - 1) as u64 == high.abs_diff(low)
}
