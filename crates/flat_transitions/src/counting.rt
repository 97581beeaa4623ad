//! How many flat transitions there are. It takes no memory, and a count stands still at the greatest number of its type.

ghost use Rattle.std.specs.Prelude.{◌≡◌, ◌+◌, ◌*◌, ◌^◌, ◌-◌, min, length, fold};
ghost use Rattle.estelle_model.specs.Definitions.{domains_of};
ghost use Rattle.pascal_values.specs.Shapes.{item_count};
ghost use Rattle.flat_transitions.specs.Counts as spec;
ghost use Rattle.flat_transitions.specs.Flat as flat;
ghost use Rattle.meaning_table.specs.Known.{meanings_of};

use estelle_tree::{AnyDom, Clause, Group, Name, Sequence, Trans, TransBody};
use meaning_table::{Table, range_in};

fn at_most(count: u64) -> u32
    ensures { result ≡ min (2 ^ 32 - 1) count }
{
    if count < u64::from(u32::MAX) {
        count as u32
    } else {
        u32::MAX
    }
}

fn times(a: u32, b: u32) -> u32
    ensures { result ≡ min (2 ^ 32 - 1) (a * b) }
{
    at_most(u64::from(a) * u64::from(b))
}

fn plus(a: u32, b: u32) -> u32
    ensures { result ≡ min (2 ^ 32 - 1) (a + b) }
{
    at_most(u64::from(a) + u64::from(b))
}

/// How many ordinals there are from one to another.
pub fn item_count(low: i64, high: i64) -> u32
    ensures { result ≡ min (2 ^ 32 - 1) (item_count low high) }
{
    if high < low {
        return 0;
    }
    let more = high.abs_diff(low);
    if more < u64::from(u32::MAX) {
        more as u32 + 1
    } else {
        u32::MAX
    }
}

/// A size for each name, multiplied. The names tell how many there are.
fn power(size: u32, names: &[Name]) -> u32
    ensures { result ≡ min (2 ^ 32 - 1) (size ^ length names.now) }
{
    let mut count = 1;
    for _name in names {
        count = times(count, size);
    }
    count
}

/// How many choices of values there are for the names of one domain.
fn domain_count(table: &Table, domain: &AnyDom) -> u32
    ensures { result ≡ min (2 ^ 32 - 1) (spec.domain_count (meanings_of table.now) domain.now) }
{
    let (low, high) = range_in(table, &domain.domain);
    power(item_count(low, high), domain.names.names.items())
}

/// How many there are for the names of an `any` clause.
pub fn variants_of(table: &Table, domains: &[AnyDom]) -> u32
    ensures { result ≡ min (2 ^ 32 - 1) (spec.domains_count (meanings_of table.now) domains.now) }
{
    let mut count = 1;
    for domain in domains {
        count = times(count, domain_count(table, domain));
    }
    count
}

fn variants_by(table: &Table, clause: &Clause) -> u32
    ensures { result ≡ min (2 ^ 32 - 1) (spec.domains_count (meanings_of table.now) (domains_of clause.now)) }
{
    match clause {
        Clause::Any { domains, .. } => variants_of(table, domains.items()),
        _ => 1,
    }
}

#[cycle(groups)]
fn trans_body(table: &Table, body: &TransBody) -> u32
    ensures { result ≡ min (2 ^ 32 - 1) (spec.count_body (meanings_of table.now) body.now) }
{
    match body {
        TransBody::Block(_) => 1,
        TransBody::Groups { groups: inner, .. } => groups(table, inner.items()),
    }
}

#[cycle(groups)]
fn groups(table: &Table, groups: &[Group]) -> u32
    ensures { result ≡ min (2 ^ 32 - 1) (fold (λ n g. n + spec.count_group (meanings_of table.now) g) 0 groups.now) }
{
    let mut count = 0;
    for inner in groups {
        count = plus(count, group(table, inner));
    }
    count
}

#[cycle(groups)]
fn group(table: &Table, group: &Group) -> u32
    ensures { result ≡ min (2 ^ 32 - 1) (spec.count_group (meanings_of table.now) group.now) }
{
    let variants = variants_by(table, &group.clause);
    times(variants, trans_body(table, &group.body))
}

/// How many flat transitions stand behind each `trans`, a number that stands still at `u32::MAX`.
#[tactic(auto, using(crate::proofs::Counts::counts, crate::proofs::Counts::all_counted))]
pub fn count(table: &Table, transitions: &[Trans]) -> u32
    ensures { result ≡ min (2 ^ 32 - 1) (length (flat.transitions_in (flat.with_chosen table.now) transitions.now)) }
{
    let mut count = 0;
    for trans in transitions {
        count = plus(count, trans_body(table, &trans.body));
    }
    count
}
