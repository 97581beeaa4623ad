//! The types of operations, calls and set constructors.

ghost use Rattle.std.specs.Prelude.{◌≡◌};
ghost use Rattle.type_rules.specs.Types as types;
ghost use Rattle.type_rules.specs.Sites as sites;
ghost use Rattle.type_rules.specs.ExpressionSites as spec;

use crate::denoted::host_in;
use crate::sites::{Access, Members, Operator, Typed, Wanted};
use crate::types::{
    Base, Host, PascalType, fits, is_array, is_boolean, is_integer, is_ordinal, may_be_in,
    ordinals_fit, sets_fit,
};
use estelle_tree::{Adding, Multiplying, Relation, Required, Span};

fn only_where(test: bool, u: PascalType) -> Option<PascalType>
    ensures { result ≡ types.where_ test u }
{
    if test { Some(u) } else { None }
}

fn joined(a: PascalType, b: PascalType) -> PascalType
    ensures { result ≡ types.joined a b }
{
    match a {
        PascalType::EmptySet => b,
        _ => a,
    }
}

fn arithmetic(a: PascalType, b: PascalType) -> Option<PascalType>
    ensures { result ≡ types.gives (Operator.Arithmetic) a b }
{
    if is_integer(a) {
        return only_where(is_integer(b), PascalType::Whole(Host::Integer));
    }
    only_where(sets_fit(a, b), joined(a, b))
}

/// The type of what an operation gives.
pub fn gives(operator: Operator, a: PascalType, b: PascalType) -> Option<PascalType>
    ensures { result ≡ types.gives operator a b }
{
    let boolean = PascalType::Whole(Host::Boolean);
    match operator {
        Operator::Arithmetic => arithmetic(a, b),
        Operator::Division => only_where(
            is_integer(a) && is_integer(b),
            PascalType::Whole(Host::Integer),
        ),
        Operator::Logical => only_where(is_boolean(a) && is_boolean(b), boolean),
        Operator::Equality | Operator::Inclusion => only_where(
            ordinals_fit(a, b) || sets_fit(a, b),
            boolean,
        ),
        Operator::Order => only_where(ordinals_fit(a, b), boolean),
        Operator::Membership => only_where(may_be_in(a, b), boolean),
    }
}

/// Whether a type is as the place of its expression wants it.
pub fn is_wanted(wanted: Wanted, u: PascalType) -> bool
    ensures { result ≡ sites.is_wanted wanted u }
{
    match wanted {
        Wanted::AnInteger => is_integer(u),
        Wanted::ABoolean => is_boolean(u),
        Wanted::AnOrdinal => is_ordinal(u),
        Wanted::AnArray => is_array(u),
        Wanted::Fitting(v) => fits(v, u),
    }
}

/// An expression of a type that is no variable.
pub fn value_at(at: Span, type_: Option<PascalType>) -> Typed
    ensures { result ≡ spec.value_at at type_ }
{
    Typed {
        at,
        type_,
        access: Access::NoVariable,
    }
}

fn given(operator: Operator, a: Option<PascalType>, b: Option<PascalType>) -> Option<PascalType>
    ensures { result ≡ spec.given_by (λ u. spec.given_by (types.gives operator u) b) a }
{
    match (a, b) {
        (Some(a), Some(b)) => gives(operator, a, b),
        _ => None,
    }
}

fn from_one_to_another(a: Span, b: Span) -> Span
    ensures { result ≡ spec.from_one_to_another a b }
{
    Span {
        start: a.start,
        end: b.end,
    }
}

/// An operation of two operands.
pub fn operated(operator: Operator, a: Typed, b: Typed) -> Typed
    ensures { result ≡ spec.operated operator a b }
{
    value_at(
        from_one_to_another(a.at, b.at),
        given(operator, a.type_, b.type_),
    )
}

fn integer_only(type_: Option<PascalType>) -> Option<PascalType>
    ensures { result ≡ spec.given_by (λ u. types.where_ (types.is_integer u) types.integer) type_ }
{
    match type_ {
        None => None,
        Some(u) => only_where(is_integer(u), PascalType::Whole(Host::Integer)),
    }
}

/// A term behind a sign.
pub fn signed_typed(at: Span, operand: Typed) -> Typed
    ensures { result ≡ spec.signed_typed at operand }
{
    value_at(
        from_one_to_another(at, operand.at),
        integer_only(operand.type_),
    )
}

fn boolean_only(type_: Option<PascalType>) -> Option<PascalType>
    ensures { result ≡ spec.given_by (λ u. types.where_ (types.is_boolean u) types.boolean) type_ }
{
    match type_ {
        None => None,
        Some(u) => only_where(is_boolean(u), PascalType::Whole(Host::Boolean)),
    }
}

/// A factor behind `not`.
pub fn negated_typed(at: Span, operand: Typed) -> Typed
    ensures { result ≡ spec.negated_typed at operand }
{
    value_at(at, boolean_only(operand.type_))
}

/// A type, where it is ordinal.
pub fn where_ordinal(type_: Option<PascalType>) -> Option<PascalType>
    ensures { result ≡ spec.where_ordinal type_ }
{
    match type_ {
        None => None,
        Some(u) => only_where(is_ordinal(u), u),
    }
}

pub fn relating(relation: Relation) -> Operator
    ensures { result ≡ spec.relating relation }
{
    match relation {
        Relation::Equal | Relation::NotEqual => Operator::Equality,
        Relation::Less | Relation::Greater => Operator::Order,
        Relation::AtMost | Relation::AtLeast => Operator::Inclusion,
        Relation::Member => Operator::Membership,
    }
}

pub fn adding(adding: Adding) -> Operator
    ensures { result ≡ spec.adding_ adding }
{
    match adding {
        Adding::Plus | Adding::Minus => Operator::Arithmetic,
        Adding::Or => Operator::Logical,
    }
}

pub fn multiplying(multiplying: Multiplying) -> Operator
    ensures { result ≡ spec.multiplying_ multiplying }
{
    match multiplying {
        Multiplying::Star => Operator::Arithmetic,
        Multiplying::Div | Multiplying::Mod => Operator::Division,
        Multiplying::And => Operator::Logical,
    }
}

fn member_wanted(base: Option<Host>) -> Wanted
    ensures { result ≡ spec.member_wanted base }
{
    match base {
        None => Wanted::AnOrdinal,
        Some(host) => Wanted::Fitting(PascalType::Whole(host)),
    }
}

/// What is wanted of the next member of a set constructor.
pub fn next_wanted(members: Members) -> Wanted
    ensures { result ≡ spec.next_wanted members }
{
    match members {
        Members::NoMember => Wanted::AnOrdinal,
        Members::SomeMembers { base, .. } => member_wanted(base),
    }
}

fn has_wanted(wanted: Wanted, type_: Option<PascalType>) -> bool
    ensures { result ≡ spec.type_passes (sites.is_wanted wanted) type_ }
{
    match type_ {
        None => false,
        Some(u) => is_wanted(wanted, u),
    }
}

/// The members so far, with one more.
pub fn with_member(members: Members, member: Typed) -> Members
    ensures { result ≡ spec.with_member members member }
{
    match members {
        Members::NoMember => Members::SomeMembers {
            base: host_in(member.type_),
            fit: true,
        },
        Members::SomeMembers { base, fit } => Members::SomeMembers {
            base,
            fit: fit && has_wanted(member_wanted(base), member.type_),
        },
    }
}

/// The type of a set constructor with these members.
pub fn set_type_of(at: Span, members: Members) -> Option<PascalType>
    ensures { result ≡ spec.set_type_of at members }
{
    match members {
        Members::NoMember => Some(PascalType::EmptySet),
        Members::SomeMembers { base: None, .. } => None,
        Members::SomeMembers {
            base: Some(base),
            fit,
        } => only_where(
            fit,
            PascalType::Set {
                base: Base::Ordinal(base),
                at,
            },
        ),
    }
}

/// What a required function takes.
pub fn required_argument(required: Required) -> Wanted
    ensures { result ≡ spec.required_argument required }
{
    match required {
        Required::Abs | Required::Sqr | Required::Odd | Required::Chr => Wanted::AnInteger,
        Required::Succ | Required::Pred | Required::Ord => Wanted::AnOrdinal,
    }
}

pub fn whole_of(host: Option<Host>) -> Option<PascalType>
    ensures { result ≡ spec.whole_of host }
{
    match host {
        None => None,
        Some(host) => Some(PascalType::Whole(host)),
    }
}

/// The type of a required function's result, by that of its argument.
pub fn required_result(required: Required, argument: Option<PascalType>) -> Option<PascalType>
    ensures { result ≡ spec.required_result required argument }
{
    match required {
        Required::Abs | Required::Sqr | Required::Ord => Some(PascalType::Whole(Host::Integer)),
        Required::Odd => Some(PascalType::Whole(Host::Boolean)),
        Required::Chr => Some(PascalType::Whole(Host::Char)),
        Required::Succ | Required::Pred => whole_of(host_in(argument)),
    }
}

/// A variable that stands there as a whole.
pub fn placed_at(at: Span, variable: Typed) -> Typed
    ensures { result ≡ spec.placed_at at variable }
{
    Typed {
        at,
        type_: variable.type_,
        access: variable.access,
    }
}
