//! What names mean, as a table.

ghost use Rattle.std.specs.Prelude.{◌≡◌, IfOk};
ghost use Rattle.std.specs.Option.{option_copied};
ghost use Rattle.type_rules.specs.Meanings.{declaration_of};
ghost use Rattle.module_table.specs.Known as spec;

use crate::declared::{Declared, Interaction, InteractionPoint};
use crate::declaring::{declare_groups, declare_header, declare_ips};
use declaration_table::Table;
use estelle_tree::{Attr, Name, Names, Sequence, Span, Spec};
use place_table::Places;
use std::alloc::{AllocError, Global};
use std::marker::Model;
use tree_visits::{Node, Visitor, Within, walk};

/// For each name in use the name in its declaration, and what is declared at each place.
pub struct ModuleTable {
    names: Table,
    places: Places<Declared>,
}

impl Drop for ModuleTable {
    fn drop(self) {
        let ModuleTable {
            names: _,
            places: _,
        } = self;
    }
}

impl Model for ModuleTable {
    ghost use Rattle.module_table.specs.Known.{Known};

    ghost Value = { Known };

    ghost view = { λ t. record { names = t.names; places = t.places } };
}

impl ModuleTable {
    /// The name in the declaration of a name in use; none where it means nothing.
    pub fn declaration_of(&self, name: &Name) -> Option<Span>
        ensures { result ≡ declaration_of self.now.names name.now }
    {
        self.names.declaration_of(name)
    }

    #[tactic(auto, unfolding(crate::specs::Known::declared_as))]
    fn declared_as(&self, name: &Name) -> Option<&Declared>
        ensures { option_copied result ≡ spec.declared_as self.now name.now }
    {
        match self.names.declaration_of(name) {
            None => None,
            Some(at) => self.places.get(at.start),
        }
    }

    /// The attribute of the header that a name means; none where it has none.
    pub fn attribute_of(&self, name: &Name) -> Option<Attr>
        ensures { result ≡ spec.attribute_of self.now name.now }
    {
        match self.declared_as(name) {
            Some(Declared::Header(attribute)) => *attribute,
            _ => None,
        }
    }

    /// The interaction point that a name means.
    pub fn ip_of(&self, name: &Name) -> Option<InteractionPoint>
        ensures { result ≡ spec.ip_of self.now name.now }
    {
        match self.declared_as(name) {
            Some(Declared::Ip(ip)) => Some(*ip),
            _ => None,
        }
    }

    /// The interaction that a name means.
    pub fn interaction_of(&self, name: &Name) -> Option<&Interaction>
        ensures { option_copied result ≡ spec.interaction_of self.now name.now }
    {
        match self.declared_as(name) {
            Some(Declared::Interaction(interaction)) => Some(interaction),
            _ => None,
        }
    }
}

impl Visitor for ModuleTable {
    ghost use Rattle.module_table.specs.Known as spec;

    ghost step = { λ k v. spec.declare_all k (spec.visit_declares k.names v) };

    fn see(&mut self, _within: &Within, node: &Node) -> Result<(), AllocError> {
        match node {
            Node::Header(header) => declare_header(&self.names, &mut self.places, header),
            Node::Ips { ips } => declare_ips(&self.names, &mut self.places, ips, false),
            Node::Channel(channel) => declare_groups(
                &self.names,
                &mut self.places,
                channel,
                channel.groups.items(),
            ),
            _ => Ok(()),
        }
    }
}

/// What is known once all that a specification declares is declared.
pub fn module_table(alloc: Global, tree: &Spec, names: &Names) -> Result<ModuleTable, AllocError>
    ensures { IfOk result (λ table. table ≡ spec.known tree.now names.now) }
{
    let mut table = ModuleTable {
        names: Table::new(alloc, names)?,
        places: Places::new(alloc),
    };
    walk(tree, &mut table)?;
    Ok(table)
}
