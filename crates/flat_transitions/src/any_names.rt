//! The names of an `any` clause, with their domains.

ghost use Rattle.std.specs.Prelude.{◌≡◌, ◌++◌, map, IfOk, OnOk};
ghost use Rattle.std.specs.List.{flat_map};
ghost use Rattle.flat_transitions.specs.Choices as spec;
ghost use Rattle.meaning_table.specs.Known.{meanings_of};

use estelle_model::{Denoter, Host, host_of, range_of};
use estelle_tree::{AnyDom, Items, Name, Sequence};
use meaning_table::{Table, ordinal_type};
use std::alloc::AllocError;

/// A name of `any` by its place, with the host and the bounds of its domain.
#[derive(Clone, Copy)]
pub struct AnyName {
    pub at: u32,
    pub host: Host,
    pub low: i64,
    pub high: i64,
}

/// Names of one domain.
fn push_names(denoter: &Denoter, names: &[Name], out: &mut Items<AnyName>) -> Result<(), AllocError>
    ensures { OnOk result (out.new ≡ out.old ++ map (λ x. spec.any_name (x, denoter.now)) names.now) }
{
    let host = host_of(denoter);
    let (low, high) = range_of(denoter);
    for name in names {
        let at = name.span.start;
        out.push(AnyName {
            at,
            host,
            low,
            high,
        })?;
    }
    Ok(())
}

fn push_domain(table: &Table, domain: &AnyDom, out: &mut Items<AnyName>) -> Result<(), AllocError>
    ensures { OnOk result (out.new ≡ out.old ++ spec.domain_names (meanings_of table.now) domain.now) }
{
    let denoter = ordinal_type(table, &domain.domain)?;
    push_names(denoter.denoter(), domain.names.names.items(), out)
}

/// The names of these domains, in order.
pub fn any_names(table: &Table, domains: &[AnyDom]) -> Result<Items<AnyName>, AllocError>
    ensures { IfOk result (λ names. names ≡ flat_map (spec.domain_names (meanings_of table.now)) domains.now) }
{
    let mut names = Items::new(table.alloc);
    for domain in domains {
        push_domain(table, domain, &mut names)?;
    }
    Ok(names)
}
