//! What a block is read in.

ghost use Rattle.std.specs.Prelude.{◌≡◌};
ghost use Rattle.body_walker_blocks.specs.Scopes.{meanings};

use body_state::ModuleBodies;
use estelle_model::Meaning;
use estelle_tree::Name;
use meaning_table::Table;
use std::marker::Model;

/// What names mean where a block stands, and what is known of the bodies of the specification.
#[derive(Drop)]
pub struct Scope<'s> {
    table: &'s Table<'s>,
    bodies: &'s ModuleBodies<'s>,
}

impl<'s> Model for Scope<'s> {
    ghost use Rattle.std.specs.Coded.{codes};
    ghost use Rattle.pascal_values.specs.contracts.value.Value as of_values;
    ghost use Rattle.estelle_model.specs.contracts.denoter.Denoter as of_denoters;
    ghost use Rattle.estelle_tree.specs.contracts.tree.statement.Stmts as of_statements;
    ghost use Rattle.estelle_tree.specs.contracts.tree.specification.Spec as of_specs;
    ghost use Rattle.body_walker_blocks.specs.Scopes.{Scoped};

    ghost Value = { Scoped };

    ghost coded = { Prim.hlevel (codes, of_values.the_row.coded, of_denoters.the_row.coded, of_statements.the_row.coded, of_specs.the_row.coded) };

    ghost view = { λ s. record { known = s.table.now; subject = s.bodies.now } };
}

impl<'s> Scope<'s> {
    pub fn new(table: &'s Table<'s>, bodies: &'s ModuleBodies<'s>) -> Scope<'s>
        ensures { result ≡ record { known = table.now; subject = bodies.now } }
    {
        Scope { table, bodies }
    }

    /// What a name means.
    pub fn meaning(&self, name: &Name) -> &Meaning<'s>
        ensures { result.now ≡ meanings self.now name.now }
    {
        self.table.meaning(name)
    }

    /// The bodies of the specification.
    pub fn bodies(&self) -> &ModuleBodies<'s>
        ensures { result.now ≡ self.now.subject }
    {
        self.bodies
    }
}
