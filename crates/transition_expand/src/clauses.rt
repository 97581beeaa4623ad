//! What a clause breaks.

ghost use Rattle.std.specs.Prelude.{◌≡◌, ◌&&◌, not};
ghost use Rattle.std.specs.List.{flat_map};
ghost use Rattle.type_rules.specs.Types.{fails, is_integer};
ghost use Rattle.transition_expand.specs.TransitionRules as spec;
ghost use Rattle.tree_visits.specs.Nodes.{around};
ghost use Rattle.visit_rules.specs.Breaches.{noted_all};

use crate::domains::Domains;
use declaration_table::Table;
use estelle_tree::{AnyDom, Clause, Const, Ordinal, Sequence, Sign};
use scope_rules::Breach;
use tree_visits::Within;
use type_rules::{
    Denoted, Host, PascalType, Value, is_integer, is_ordinal, is_whole_integer, same_host,
    signed_number,
};
use visit_rules::noted_where;

/// Whether a constant has no value, or one that is negative or no integer.
fn is_no_number(value: Option<Value>) -> bool
    ensures { result ≡ spec.is_no_number value }
{
    match value {
        None => true,
        Some(value) => !same_host(value.host, Host::Integer) || value.ordinal < 0,
    }
}

/// Whether some value of a domain is negative, with this sign before it.
fn has_negative(sign: Option<Sign>, domain: Denoted) -> bool
    ensures { result ≡ spec.has_negative sign domain }
{
    let least = signed_number(sign, domain.least);
    let greatest = signed_number(sign, domain.greatest);
    domain.least <= domain.greatest && (least < 0 || greatest < 0)
}

/// Whether some value of a domain is negative or no integer. A domain without a type is not judged here.
fn has_no_number(sign: Option<Sign>, domain: Denoted) -> bool
    ensures { result ≡ fails (λ u. is_integer u && not (spec.has_negative sign domain)) domain.type_ }
{
    match domain.type_ {
        None => false,
        Some(u) => !(is_integer(u) && !has_negative(sign, domain)),
    }
}

fn is_wrong(sign: Option<Sign>, domain: Option<Denoted>, value: Option<Value>) -> bool
    ensures { result ≡ spec.is_wrong sign domain value }
{
    match domain {
        None => is_no_number(value),
        Some(domain) => has_no_number(sign, domain),
    }
}

/// Whether a constant of `priority` is negative or no integer.
fn is_no_priority(domains: &Domains, constant: &Const) -> bool
    ensures { result ≡ spec.is_no_priority domains.now constant.now }
{
    let value = domains.types().const_value(constant);
    match constant {
        Const::Name { sign, name, .. } => {
            let declared = domains.types().declaration_of(name);
            is_wrong(*sign, domains.domain_of(declared), value)
        }
        Const::Number { .. } | Const::Char { .. } => is_no_number(value),
    }
}

fn are_no_bounds(low: Option<Value>, high: Option<Value>) -> bool
    ensures { result ≡ spec.are_no_bounds low high }
{
    match (low, high) {
        (Some(low), Some(high)) => !same_host(low.host, high.host),
        _ => true,
    }
}

fn is_no_choice(u: Option<PascalType>) -> bool
    ensures { result ≡ spec.is_no_choice u }
{
    match u {
        None => true,
        Some(u) => !(is_ordinal(u) && !is_whole_integer(u)),
    }
}

/// Whether a domain is integer or no ordinal type, or its bounds have no values of one type.
fn is_no_domain(types: &Table, domain: &Ordinal) -> bool
    ensures { result ≡ spec.is_no_domain types.now domain.now }
{
    match domain {
        Ordinal::Name(_) => is_no_choice(types.ordinal_type(domain).type_),
        Ordinal::Enumeration { .. } => false,
        Ordinal::Subrange { low, high, .. } => {
            are_no_bounds(types.const_value(low), types.const_value(high))
        }
    }
}

fn noted_domains(types: &Table, anys: &[AnyDom], first: Option<Breach>) -> Option<Breach>
    ensures { result ≡ noted_all first (flat_map (spec.wrong_domain types.now) anys.now) }
{
    let mut all = first;
    for any in anys {
        let broken = is_no_domain(types, &any.domain);
        all = noted_where(broken, 32, any.domain.span(), all);
    }
    all
}

/// With what a clause breaks of the rules 30 to 32.
pub fn noted_clause(
    domains: &Domains,
    within: &Within,
    clause: &Clause,
    first: Option<Breach>,
) -> Option<Breach>
    ensures { result ≡ noted_all first (spec.clause_breaches domains.now (around within.now) clause.now) }
{
    match clause {
        Clause::When { span, .. } => noted_where(within.delayed, 30, *span, first),
        Clause::Delay { span, .. } => noted_where(within.received, 30, *span, first),
        Clause::Priority { value, .. } => {
            noted_where(is_no_priority(domains, value), 31, value.span(), first)
        }
        Clause::Any { domains: anys, .. } => noted_domains(domains.types(), anys.items(), first),
        Clause::From { .. } | Clause::To { .. } | Clause::Provided { .. } => first,
    }
}
