//! Kinds of what stands on stacks.

ghost use Rattle.std.specs.Prelude.{◌≡◌, true, map, option_map};
ghost use Rattle.body_kinds.specs.Kinds as spec;
ghost use Rattle.body_kinds.specs.Kinded as kinded;
ghost use Rattle.estelle_model.specs.Types.{shape_of};
ghost use Rattle.body_unit_kinds.specs.Seen.{meant};

use crate::shapes::{is_shape_of, same_shape};
use body_code::Local;
use estelle_model::{Denoter, Host};
use estelle_tree::Sequence;
use pascal_values::{Shape, Value};

/// A kind, which lends the shape of an array, of a record or of what stands at a place.
#[derive(Clone, Copy, Debug)]
pub enum Kind<'a> {
    Integer,
    Boolean,
    Character,
    Enumerated,
    Members,
    Whole(&'a Shape),
    PlaceOf(&'a Shape),
}

impl Default for Kind<'_> {
    fn default() -> Self {
        Kind::Members
    }
}

/// The kind of the values of a shape.
pub fn kind_of(shape: &Shape) -> Kind
    ensures { meant result ≡ spec.kind_of shape.now }
{
    match shape {
        Shape::Int { .. } => Kind::Integer,
        Shape::Bool { .. } => Kind::Boolean,
        Shape::Char { .. } => Kind::Character,
        Shape::Enum { .. } => Kind::Enumerated,
        Shape::Set { .. } => Kind::Members,
        Shape::Array { .. } => Kind::Whole(shape),
        Shape::Fields(_) => Kind::Whole(shape),
    }
}

/// Of what is given to a local.
pub fn local_kind(local: &Local) -> Kind
    ensures { meant result ≡ kinded.local_kind local.now }
{
    if local.by_ref {
        return Kind::PlaceOf(&local.shape);
    }
    kind_of(&local.shape)
}

/// Of a simple value or a set that is set.
pub fn simple_kind<'a>(value: &Value) -> Option<Kind<'a>>
    ensures { option_map meant result ≡ spec.simple_kind value.now }
{
    match value {
        Value::Int(_) => Some(Kind::Integer),
        Value::Bool(_) => Some(Kind::Boolean),
        Value::Char(_) => Some(Kind::Character),
        Value::Enum(_) => Some(Kind::Enumerated),
        Value::Set(members) => {
            let _rising = members.items();
            Some(Kind::Members)
        }
        Value::Unset => None,
        Value::Array(_) => None,
        Value::Fields(_) => None,
    }
}

pub fn same_kind(a: Kind, b: Kind) -> bool
    ensures { result ≡ true → meant a.entry ≡ meant b.entry }
{
    match a {
        Kind::Integer => matches!(b, Kind::Integer),
        Kind::Boolean => matches!(b, Kind::Boolean),
        Kind::Character => matches!(b, Kind::Character),
        Kind::Enumerated => matches!(b, Kind::Enumerated),
        Kind::Members => matches!(b, Kind::Members),
        Kind::Whole(one) => match b {
            Kind::Whole(other) => same_shape(one, other),
            _ => false,
        },
        Kind::PlaceOf(one) => match b {
            Kind::PlaceOf(other) => same_shape(one, other),
            _ => false,
        },
    }
}

pub fn same_kinds(a: &[Kind], b: &[Kind]) -> bool
    ensures { result ≡ true → map meant a.now ≡ map meant b.now }
{
    if a.len() != b.len() {
        return false;
    }
    for i in 0..a.len() {
        if !same_kind(a[i], b[i]) {
            return false;
        }
    }
    true
}

/// Whether the values of a type are of the kind.
pub fn is_of_type(kind: Kind, denoter: &Denoter) -> bool
    ensures { result ≡ true → meant kind.entry ≡ spec.kind_of (shape_of denoter.now) }
{
    match denoter {
        Denoter::Ordinal { host, .. } => match host {
            Host::Integer => matches!(kind, Kind::Integer),
            Host::Boolean => matches!(kind, Kind::Boolean),
            Host::Char => matches!(kind, Kind::Character),
            Host::Enumeration { .. } => matches!(kind, Kind::Enumerated),
        },
        Denoter::Set { .. } => matches!(kind, Kind::Members),
        Denoter::Array { .. } => is_whole(kind, denoter),
        Denoter::Fields(_) => is_whole(kind, denoter),
    }
}

fn is_whole(kind: Kind, denoter: &Denoter) -> bool
    ensures { result ≡ true → meant kind.entry ≡ spec.Whole (shape_of denoter.now) }
{
    match kind {
        Kind::Whole(shape) => is_shape_of(shape, denoter),
        _ => false,
    }
}
