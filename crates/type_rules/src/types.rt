//! Types, and constants as values.

ghost use Rattle.std.specs.Prelude.{◌≡◌};
ghost use Rattle.type_rules.specs.Types as spec;

use estelle_tree::Span;

/// An ordinal type that is no subrange; of a subrange it is the host type (ISO 7185, 6.4.2).
#[derive(Clone, Copy)]
pub enum Host {
    Integer,
    Boolean,
    Char,
    /// By the type expression that lists its values.
    Enumeration { at: Span },
}

/// The base of a set type. One that is no ordinal type is at fault, and the set type is a set type all the same.
#[derive(Clone, Copy)]
pub enum Base {
    /// By its host.
    Ordinal(Host),
    /// A type that is not ordinal, by its type expression.
    Other { at: Span },
    /// A type expression at fault, which denotes no type.
    Unknown,
}

/// A type. A name of a type is the type that it names, so two types are the same where they are equal.
#[derive(Clone, Copy)]
pub enum PascalType {
    Whole(Host),
    /// By its type expression.
    Subrange { host: Host, at: Span },
    /// A set by its base, and by its type expression or its constructor.
    Set { base: Base, at: Span },
    /// What `[]` is.
    EmptySet,
    /// By its type expression; an array inside one of several indices, by its index.
    Array { at: Span },
    /// A record by its type expression.
    Fields { at: Span },
}

/// The value of a constant: its type, and its ordinal there (ISO 7185, 6.3).
#[derive(Clone, Copy)]
pub struct Value {
    pub host: Host,
    pub ordinal: i64,
}

/// What a type expression denotes.
#[derive(Clone, Copy)]
pub struct Denoted {
    /// None where the expression itself is at fault.
    pub type_: Option<PascalType>,
    /// The least and the greatest ordinal of an ordinal type; 0 of any other.
    pub least: i64,
    pub greatest: i64,
    /// How many simple parts a value has, where a set counts as one. It stands still at 65,537, one more than is
    /// allowed.
    pub simple_parts: u32,
    /// How deep arrays and records are nested, where each index of an array counts as one. It stands still at 201,
    /// one more than is allowed.
    pub depth: u8,
}

fn same_span(a: Span, b: Span) -> bool
    ensures { result ≡ spec.same_span a b }
{
    a.start == b.start && a.end == b.end
}

pub fn same_host(a: Host, b: Host) -> bool
    ensures { result ≡ spec.same_host a b }
{
    match (a, b) {
        (Host::Integer, Host::Integer) => true,
        (Host::Boolean, Host::Boolean) => true,
        (Host::Char, Host::Char) => true,
        (Host::Enumeration { at: a }, Host::Enumeration { at: b }) => same_span(a, b),
        _ => false,
    }
}

/// Whether two types come from one declaration or one type expression.
pub fn same_type(a: PascalType, b: PascalType) -> bool
    ensures { result ≡ spec.same_type a b }
{
    match (a, b) {
        (PascalType::Whole(a), PascalType::Whole(b)) => same_host(a, b),
        (PascalType::Subrange { at: a, .. }, PascalType::Subrange { at: b, .. }) => same_span(a, b),
        (PascalType::Set { at: a, .. }, PascalType::Set { at: b, .. }) => same_span(a, b),
        (PascalType::Array { at: a }, PascalType::Array { at: b }) => same_span(a, b),
        (PascalType::Fields { at: a }, PascalType::Fields { at: b }) => same_span(a, b),
        _ => false,
    }
}

/// The host of an ordinal type.
pub fn host_of(u: PascalType) -> Option<Host>
    ensures { result ≡ spec.host_of u }
{
    match u {
        PascalType::Whole(host) | PascalType::Subrange { host, .. } => Some(host),
        _ => None,
    }
}

pub fn is_ordinal(u: PascalType) -> bool
    ensures { result ≡ spec.is_ordinal u }
{
    host_of(u).is_some()
}

/// Whether a type is this ordinal type or a subrange of it.
pub fn is_of(host: Host, u: PascalType) -> bool
    ensures { result ≡ spec.is_of host u }
{
    match host_of(u) {
        None => false,
        Some(of) => same_host(of, host),
    }
}

pub fn is_integer(u: PascalType) -> bool
    ensures { result ≡ spec.is_integer u }
{
    is_of(Host::Integer, u)
}

pub fn is_boolean(u: PascalType) -> bool
    ensures { result ≡ spec.is_boolean u }
{
    is_of(Host::Boolean, u)
}

fn is_set(u: PascalType) -> bool
    ensures { result ≡ spec.is_set u }
{
    match u {
        PascalType::Set { .. } | PascalType::EmptySet => true,
        _ => false,
    }
}

pub fn is_array(u: PascalType) -> bool
    ensures { result ≡ spec.is_array u }
{
    match u {
        PascalType::Array { .. } => true,
        _ => false,
    }
}

/// Whether a type is integer itself.
pub fn is_whole_integer(u: PascalType) -> bool
    ensures { result ≡ spec.is_whole_integer u }
{
    match u {
        PascalType::Whole(Host::Integer) => true,
        _ => false,
    }
}

pub fn ordinals_fit(a: PascalType, b: PascalType) -> bool
    ensures { result ≡ spec.ordinals_fit a b }
{
    match b {
        PascalType::Whole(host) | PascalType::Subrange { host, .. } => is_of(host, a),
        _ => false,
    }
}

/// Whether two bases are one type; of an unknown one that is not judged.
fn bases_fit(a: Base, b: Base) -> bool
    ensures { result ≡ spec.bases_fit a b }
{
    match (a, b) {
        (Base::Unknown, _) | (_, Base::Unknown) => true,
        (Base::Ordinal(a), Base::Ordinal(b)) => same_host(a, b),
        (Base::Other { at: a }, Base::Other { at: b }) => same_span(a, b),
        _ => false,
    }
}

pub fn sets_fit(a: PascalType, b: PascalType) -> bool
    ensures { result ≡ spec.sets_fit a b }
{
    match (a, b) {
        (PascalType::Set { base: a, .. }, PascalType::Set { base: b, .. }) => bases_fit(a, b),
        (PascalType::Set { .. }, PascalType::EmptySet) => true,
        (PascalType::EmptySet, b) => is_set(b),
        _ => false,
    }
}

/// Whether a value of one type may be assigned to a variable of the other.
pub fn fits(a: PascalType, b: PascalType) -> bool
    ensures { result ≡ spec.fits a b }
{
    ordinals_fit(a, b) || sets_fit(a, b) || same_type(a, b)
}

/// Whether a type is ordinal, and may be the base.
fn may_be_of(a: PascalType, base: Base) -> bool
    ensures { result ≡ spec.may_be_of a base }
{
    match base {
        Base::Ordinal(host) => is_of(host, a),
        Base::Other { .. } => false,
        Base::Unknown => is_ordinal(a),
    }
}

/// Whether a value of the one type may be a member of the other.
pub fn may_be_in(a: PascalType, b: PascalType) -> bool
    ensures { result ≡ spec.may_be_in a b }
{
    match b {
        PascalType::Set { base, .. } => may_be_of(a, base),
        PascalType::EmptySet => is_ordinal(a),
        _ => false,
    }
}

pub fn same_value(v: Value, w: Value) -> bool
    ensures { result ≡ spec.same_value v w }
{
    same_host(v.host, w.host) && v.ordinal == w.ordinal
}
