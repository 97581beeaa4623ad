//! What type expressions denote, put together from their parts.

ghost use Rattle.std.specs.Prelude.{◌≡◌, ◌+◌};
ghost use Rattle.type_rules.specs.Types as spec;

use crate::types::{
    Base, Denoted, Host, PascalType, Value, host_of, is_ordinal, is_whole_integer, same_host,
};
use estelle_tree::Span;

/// A type with so many values that each is one simple part.
pub fn simple(type_: Option<PascalType>, least: i64, greatest: i64) -> Denoted
    ensures { result ≡ spec.simple type_ least greatest }
{
    Denoted {
        type_,
        least,
        greatest,
        simple_parts: 1,
        depth: 0,
    }
}

/// What a type expression at fault denotes.
pub fn at_fault() -> Denoted
    ensures { result ≡ spec.at_fault }
{
    simple(None, 0, 0)
}

fn counted_parts(n: u64) -> u32
    ensures { result ≡ spec.counted_parts n }
{
    n.min(65_537) as u32
}

/// One more level.
fn counted_depth(depth: u8) -> u8
    ensures { result ≡ spec.counted_depth (depth + 1) }
{
    (depth as u32 + 1).min(201) as u8
}

fn ordinal_count(low: i64, high: i64) -> u32
    ensures { result ≡ spec.ordinal_count low high }
{
    if high < low {
        return 0;
    }
    let more = high.abs_diff(low);
    if more < 65_536 {
        more as u32 + 1
    } else {
        65_537
    }
}

/// An array of these components, with this index.
pub fn over_index(component: Denoted, index: Denoted) -> Denoted
    ensures { result ≡ spec.over_index component index }
{
    let count = ordinal_count(index.least, index.greatest);
    Denoted {
        type_: component.type_,
        least: 0,
        greatest: 0,
        simple_parts: counted_parts(count as u64 * component.simple_parts as u64),
        depth: counted_depth(component.depth),
    }
}

/// An array whose components and indices are put together.
pub fn as_array(at: Span, arrays: Denoted) -> Denoted
    ensures { result ≡ spec.as_type (PascalType.Array at) arrays }
{
    Denoted {
        type_: Some(PascalType::Array { at }),
        least: 0,
        greatest: 0,
        simple_parts: arrays.simple_parts,
        depth: arrays.depth,
    }
}

/// The fields so far, with one more.
pub fn with_field(fields: Denoted, field: Denoted) -> Denoted
    ensures { result ≡ spec.with_field fields field }
{
    Denoted {
        type_: None,
        least: 0,
        greatest: 0,
        simple_parts: counted_parts(fields.simple_parts as u64 + field.simple_parts as u64),
        depth: fields.depth.max(field.depth),
    }
}

pub fn no_fields() -> Denoted
    ensures { result ≡ spec.no_fields }
{
    Denoted {
        type_: None,
        least: 0,
        greatest: 0,
        simple_parts: 0,
        depth: 0,
    }
}

/// A record of these fields.
pub fn record_type(at: Span, fields: Denoted) -> Denoted
    ensures { result ≡ spec.record_type at fields }
{
    Denoted {
        type_: Some(PascalType::Fields { at }),
        least: 0,
        greatest: 0,
        simple_parts: fields.simple_parts,
        depth: counted_depth(fields.depth),
    }
}

fn as_base(u: PascalType) -> Base
    ensures { result ≡ spec.as_base u }
{
    match u {
        PascalType::Whole(host) | PascalType::Subrange { host, .. } => Base::Ordinal(host),
        PascalType::Set { at, .. } | PascalType::Array { at } | PascalType::Fields { at } => {
            Base::Other { at }
        }
        PascalType::EmptySet => Base::Unknown,
    }
}

fn base_of(type_: Option<PascalType>) -> Base
    ensures { result ≡ spec.base_of type_ }
{
    match type_ {
        None => Base::Unknown,
        Some(u) => as_base(u),
    }
}

pub fn host_in(type_: Option<PascalType>) -> Option<Host>
    ensures { result ≡ spec.host_in type_ }
{
    match type_ {
        None => None,
        Some(u) => host_of(u),
    }
}

/// A set with this base, whatever that is.
pub fn set_type(at: Span, base: Denoted) -> Denoted
    ensures { result ≡ spec.set_type at base }
{
    let base = base_of(base.type_);
    simple(Some(PascalType::Set { base, at }), 0, 0)
}

/// A subrange by its bounds.
pub fn subrange(at: Span, low: Option<Value>, high: Option<Value>) -> Denoted
    ensures { result ≡ spec.subrange at low high }
{
    match (low, high) {
        (Some(low), Some(high)) => {
            if same_host(low.host, high.host) {
                let host = low.host;
                return simple(
                    Some(PascalType::Subrange { host, at }),
                    low.ordinal,
                    high.ordinal,
                );
            }
            at_fault()
        }
        _ => at_fault(),
    }
}

/// Whether bounds are not of one ordinal type, or have no value between them.
pub fn is_no_subrange(low: Option<Value>, high: Option<Value>) -> bool
    ensures { result ≡ spec.is_no_subrange low high }
{
    match (low, high) {
        (Some(low), Some(high)) => !same_host(low.host, high.host) || high.ordinal < low.ordinal,
        _ => false,
    }
}

fn is_member_ordinal(n: i64) -> bool
    ensures { result ≡ spec.is_member_ordinal n }
{
    !(n < 0) && !(255 < n)
}

/// Whether the base of a set is no ordinal type, or not in 0..255.
pub fn is_no_base(base: Denoted) -> bool
    ensures { result ≡ spec.is_no_base base }
{
    match base.type_ {
        None => false,
        Some(u) => !(is_ordinal(u)
            && (is_member_ordinal(base.least) && is_member_ordinal(base.greatest))),
    }
}

/// Whether an index is integer or no ordinal type.
pub fn is_no_index(index: Denoted) -> bool
    ensures { result ≡ spec.is_no_index index }
{
    match index.type_ {
        None => false,
        Some(u) => !(is_ordinal(u) && !is_whole_integer(u)),
    }
}
