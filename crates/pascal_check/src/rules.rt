//! What one place breaks.

ghost use Rattle.std.specs.Prelude.{◌≡◌, nat_eq};
ghost use Rattle.indexmap.specs.IndexSet.{contains};
ghost use Rattle.type_rules.specs.Types as types;
ghost use Rattle.type_rules.specs.Sites as sites;
ghost use Rattle.type_rules.specs.Routines as routines;
ghost use Rattle.type_rules.specs.PascalRules as rules;
ghost use Rattle.pascal_check.specs.Faults as spec;

use crate::open_routines::stands_in;
use estelle_tree::Span;
use indexmap::IndexSet;
use scope_rules::{Breach, only_if};
use type_rules::{
    Access, Denoted, Operator, PascalType, PlacedSite, RoutineAt, Site, Typed, Value, Wanted,
    gives, is_of, is_ordinal, is_wanted, same_type,
};

/// Whether the types of two operands do not fit in an operation.
fn gives_nothing(operator: Operator, a: Option<PascalType>, b: Option<PascalType>) -> bool
    ensures { result ≡ spec.gives_nothing operator a b }
{
    match (a, b) {
        (Some(a), Some(b)) => gives(operator, a, b).is_none(),
        _ => false,
    }
}

fn is_unwanted(wanted: Wanted, type_: Option<PascalType>) -> bool
    ensures { result ≡ types.fails (sites.is_wanted wanted) type_ }
{
    match type_ {
        None => false,
        Some(u) => !is_wanted(wanted, u),
    }
}

/// Whether there are two types, and they are not the same.
fn are_others(a: Option<PascalType>, b: Option<PascalType>) -> bool
    ensures { result ≡ spec.are_others a b }
{
    match (a, b) {
        (Some(a), Some(b)) => !same_type(a, b),
        _ => false,
    }
}

/// Whether an argument is no actual variable for a parameter of this type.
fn is_no_actual(parameter: Option<PascalType>, actual: &Typed) -> bool
    ensures { result ≡ spec.is_no_actual parameter actual.now.access actual.now.type_ }
{
    match actual.access {
        Access::NoVariable | Access::OfChild => true,
        Access::OwnVariable => are_others(parameter, actual.type_),
    }
}

fn is_in_function(routine: Option<RoutineAt>) -> bool
    ensures { result ≡ rules.in_function routine }
{
    match routine {
        None => false,
        Some(routine) => routine.is_function,
    }
}

/// Whether what is declared there is the routine's own.
fn is_own_in(routine: Option<RoutineAt>, declared: Option<Span>) -> bool
    ensures { result ≡ rules.is_own_in routine declared }
{
    match (routine, declared) {
        (Some(routine), Some(at)) => stands_in(routine.span, at),
        _ => false,
    }
}

fn may_assign(routine: Option<RoutineAt>, declared: Option<Span>, is_function: bool) -> bool
    ensures { result ≡ rules.may_assign routine declared is_function }
{
    is_own_in(routine, declared) || !(is_in_function(routine) || is_function)
}

/// Whether a type expression is at fault, or what it denotes is too large or nested too deep.
fn is_no_type(is_at_fault: bool, denoted: &Denoted) -> bool
    ensures { result ≡ spec.is_no_type is_at_fault denoted.now }
{
    is_at_fault || denoted.simple_parts > 65536 || denoted.depth > 200
}

fn is_of_other_type(value: Value, selector: Option<PascalType>) -> bool
    ensures { result ≡ types.fails (types.is_of value.host) selector }
{
    match selector {
        None => false,
        Some(u) => !is_of(value.host, u),
    }
}

/// Whether a label with a value has another type than the selector, or is repeated.
fn is_no_label(selector: Option<PascalType>, value: Option<Value>, is_repeated: bool) -> bool
    ensures { result ≡ spec.is_no_label selector value is_repeated }
{
    match value {
        None => false,
        Some(value) => is_of_other_type(value, selector) || is_repeated,
    }
}

fn is_not_ordinal(type_: Option<PascalType>) -> bool
    ensures { result ≡ types.fails types.is_ordinal type_ }
{
    match type_ {
        None => false,
        Some(u) => !is_ordinal(u),
    }
}

fn is_open(opened: &IndexSet<u32>, declared: Option<Span>) -> bool
    ensures { result ≡ spec.is_open (contains nat_eq opened.now) declared }
{
    match declared {
        None => false,
        Some(at) => opened.contains(&at.start),
    }
}

/// What the site breaks, where these routines are open. No site breaks two of the rules, nor one at two nodes.
pub fn breach_at(opened: &IndexSet<u32>, placed: &PlacedSite) -> Option<Breach>
    ensures { result ≡ spec.breach_at (contains nat_eq opened.now) placed.now.place placed.now.site }
{
    let routine = placed.place.routine;
    match &placed.site {
        Site::Operation {
            operator,
            left,
            right,
        } => only_if(
            gives_nothing(*operator, left.type_, right.type_),
            40,
            left.at,
        ),
        Site::Wants { wanted, operand } => {
            only_if(is_unwanted(*wanted, operand.type_), 40, operand.at)
        }
        Site::ConstantAt { at, value } => only_if(value.is_none(), 40, *at),
        Site::PriorityAt { at, host } => only_if(host.is_none(), 40, *at),
        Site::CallOf {
            at,
            parameters,
            arguments,
        } => only_if(*parameters != *arguments, 41, *at),
        Site::ForVariable { parameter, actual } => {
            only_if(is_no_actual(*parameter, actual), 42, actual.at)
        }
        Site::VarFormal(at) => only_if(is_in_function(routine), 43, *at),
        Site::Assigns {
            at,
            declared,
            is_function,
        } => only_if(!may_assign(routine, *declared, *is_function), 43, *at),
        Site::CallsProcedure(at) => only_if(is_in_function(routine), 43, *at),
        Site::EstelleStatement(at) => only_if(is_in_function(routine), 43, *at),
        Site::TypeAt {
            at,
            is_at_fault,
            denoted,
        } => only_if(is_no_type(*is_at_fault, denoted), 44, *at),
        Site::LabelAt {
            at,
            selector,
            value,
            is_repeated,
        } => only_if(is_no_label(*selector, *value, *is_repeated), 45, *at),
        Site::ResultAt { at, type_ } => only_if(is_not_ordinal(*type_), 46, *at),
        Site::RoutineCalled { at, declared, body } => only_if(
            is_open(opened, *declared) && *body != placed.place.body,
            47,
            *at,
        ),
        Site::CountedBy { at, type_ } => only_if(is_not_ordinal(*type_), 48, *at),
        Site::VariableNamed { .. } => None,
    }
}
