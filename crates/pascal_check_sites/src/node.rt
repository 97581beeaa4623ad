//! Nodes of a tree, lists of them, and where their sites stand.

ghost use Rattle.std.specs.Prelude.{◌≡◌, ◌++◌, OnOk};
ghost use Rattle.std.specs.List.{flat_map};
ghost use Rattle.type_rules.specs.SpecificationSites.{placed};

use declaration_table::Table;
use estelle_tree::{Items, Sequence};
use std::alloc::AllocError;
use type_rules::{Place, PlacedSite, Site};

/// What rules on types speak of.
pub trait Node {
    ghost use Rattle.type_rules.specs.Meanings.{Env};
    ghost use Rattle.type_rules.specs.Sites.{Sites};

    ghost sites: { Env → Self → Sites };

    /// Adds the sites in it and of it.
    fn add_sites(&self, table: &Table, out: &mut Items<Site>) -> Result<(), AllocError>
        ensures { OnOk result (out.new ≡ out.old ++ sites table.now self.now) };
}

/// One node after another.
pub fn chain<N: Node>(nodes: &[N], table: &Table, out: &mut Items<Site>) -> Result<(), AllocError>
    ensures { OnOk result (out.new ≡ out.old ++ flat_map (N.sites table.now) nodes.now) }
{
    for node in nodes {
        node.add_sites(table, out)?;
    }
    Ok(())
}

fn place_sites(place: Place, sites: &[Site], out: &mut Items<PlacedSite>) -> Result<(), AllocError>
    ensures { OnOk result (out.new ≡ out.old ++ placed place sites.now) }
{
    for site in sites {
        out.push(PlacedSite { place, site: *site })?;
    }
    Ok(())
}

/// The sites of a node that stands there.
pub fn place_node<N: Node>(
    node: &N,
    place: Place,
    table: &Table,
    out: &mut Items<PlacedSite>,
) -> Result<(), AllocError>
    ensures { OnOk result (out.new ≡ out.old ++ placed place (N.sites table.now node.now)) }
{
    let mut sites = Items::new(table.alloc);
    node.add_sites(table, &mut sites)?;
    place_sites(place, sites.items(), out)
}

/// The sites of nodes that stand there, one after another.
pub fn place_chain<N: Node>(
    nodes: &[N],
    place: Place,
    table: &Table,
    out: &mut Items<PlacedSite>,
) -> Result<(), AllocError>
    ensures { OnOk result (out.new ≡ out.old ++ placed place (flat_map (N.sites table.now) nodes.now)) }
{
    let mut sites = Items::new(table.alloc);
    chain(nodes, table, &mut sites)?;
    place_sites(place, sites.items(), out)
}
