//! The domains of the names of `any`, by the places of the names.

ghost use Rattle.std.specs.Prelude.{◌≡◌, ◌++◌, map, IfOk, OnOk};
ghost use Rattle.std.specs.List.{flat_map};
ghost use Rattle.transition_expand.specs.Domains as spec;

use declaration_table::Table;
use estelle_tree::{AnyDom, Clause, Name, Sequence, Span, Spec};
use place_table::Places;
use std::alloc::{AllocError, Global};
use std::marker::Model;
use tree_visits::{Node, Visitor, Within, walk};
use type_rules::Denoted;

/// What names mean to the rules on types, and for each place of a name of `any` its domain.
#[derive(Drop)]
pub struct Domains<'t> {
    types: &'t Table,
    domains: Places<Denoted>,
}

impl<'t> Model for Domains<'t> {
    ghost use Rattle.transition_expand.specs.Domains.{Known};

    ghost Value = { Known };

    ghost view = { λ d. record { types = d.types.now; domains = d.domains } };
}

impl<'t> Domains<'t> {
    pub fn types(&self) -> &'t Table
        ensures { result.now ≡ self.now.types }
    {
        self.types
    }

    /// The domain of the name of `any` that is declared there.
    pub fn domain_of(&self, declared: Option<Span>) -> Option<Denoted>
        ensures { result ≡ spec.domain_of self.now declared }
    {
        match declared {
            None => None,
            Some(decl) => self.domains.get(decl.start).copied(),
        }
    }
}

/// The names of one domain.
fn put_names(
    domains: &mut Places<Denoted>,
    names: &[Name],
    domain: Denoted,
) -> Result<(), AllocError>
    ensures { OnOk result (domains.new ≡ domains.old ++ map (spec.domain_at domain) names.now) }
{
    for name in names {
        domains.push(name.span.start, domain)?;
    }
    Ok(())
}

fn put_any(types: &Table, domains: &mut Places<Denoted>, any: &AnyDom) -> Result<(), AllocError>
    ensures { OnOk result (domains.new ≡ domains.old ++ spec.any_domains types.now any.now) }
{
    put_names(
        domains,
        any.names.names.items(),
        types.ordinal_type(&any.domain),
    )
}

fn put_each(types: &Table, domains: &mut Places<Denoted>, anys: &[AnyDom]) -> Result<(), AllocError>
    ensures { OnOk result (domains.new ≡ domains.old ++ flat_map (spec.any_domains types.now) anys.now) }
{
    for any in anys {
        put_any(types, domains, any)?;
    }
    Ok(())
}

impl<'t> Visitor for Domains<'t> {
    ghost use Rattle.transition_expand.specs.Domains as spec;

    ghost step = { λ k v. spec.put_all k (spec.visit_domains k.types v) };

    fn see(&mut self, _within: &Within, node: &Node) -> Result<(), AllocError> {
        match node {
            Node::ClauseBegins(Clause::Any { domains: anys, .. }) => {
                put_each(self.types, &mut self.domains, anys.items())
            }
            _ => Ok(()),
        }
    }
}

/// The domains of all names of `any` in a specification.
pub fn domains_in<'t>(
    alloc: Global,
    tree: &Spec,
    types: &'t Table,
) -> Result<Domains<'t>, AllocError>
    ensures { IfOk result (λ domains. domains ≡ spec.known types.now tree.now) }
{
    let mut domains = Domains {
        types,
        domains: Places::new(alloc),
    };
    walk(tree, &mut domains)?;
    Ok(domains)
}
