//! What is known of names.

ghost use Rattle.std.specs.Prelude.{◌≡◌, IfOk, OnOk};
ghost use Rattle.estelle_model.specs.Names as spec;
ghost use Rattle.meaning_table.specs.Known.{unknown, with_meaning, meanings_of};

use crate::used::{HeldNames, UsedNames};
use estelle_model::Meaning;
use estelle_tree::{Name, Names, Sequence, Span};
use place_table::Layers;
use std::alloc::{AllocError, Global};
use std::marker::Model;

/// What each name in use means, as far as it is declared. A table may lie over another one, which stays as it is.
pub struct Table<'a> {
    pub alloc: Global,
    names: HeldNames<'a>,
    /// By the place of a declaration.
    declared: Layers<'a, Meaning<'a>>,
}

impl Drop for Table<'_> {
    fn drop(self) {
        let Table {
            alloc: _,
            names: _,
            declared: _,
        } = self;
    }
}

impl<'a> Model for Table<'a> {
    ghost use Rattle.std.specs.Prelude.{reverse};
    ghost use Rattle.meaning_table.specs.Known.{Known};
    ghost use Rattle.pascal_values.specs.contracts.value.Value as of_values;
    ghost use Rattle.estelle_model.specs.contracts.denoter.Denoter as of_denoters;
    ghost use Rattle.estelle_tree.specs.contracts.tree.statement.Stmts as of_statements;
    ghost use Rattle.std.specs.Coded.{codes};

    ghost Value = { Known };

    ghost coded = { Prim.hlevel (codes, of_values.the_row.coded, of_denoters.the_row.coded, of_statements.the_row.coded) };

    ghost use Rattle.meaning_table.specs.Held.{names_of};

    ghost view = { λ t. record { names = names_of t.names; declared = reverse t.declared } };
}

impl<'a> Table<'a> {
    /// Nothing is declared yet.
    pub fn new(alloc: Global, names: &Names) -> Result<Table<'a>, AllocError>
        ensures { IfOk result (λ table. table ≡ unknown names.now.uses) }
    {
        Ok(Table {
            alloc,
            names: HeldNames::Own(UsedNames::of(alloc, names)?),
            declared: Layers::new(alloc),
        })
    }

    /// A table over this one, in which nothing more is declared yet.
    pub fn over(&self) -> Result<Table<'_>, AllocError>
        ensures { IfOk result (λ table. table ≡ self.now) }
    {
        Ok(Table {
            alloc: self.alloc,
            names: HeldNames::Lent(self.names.get()),
            declared: self.declared.over(self.alloc)?,
        })
    }

    /// One more declaration, where a name begins.
    pub fn declare(&mut self, at: u32, meaning: Meaning<'a>) -> Result<(), AllocError>
        ensures { OnOk result (self.new ≡ with_meaning self.old at meaning.entry) }
    {
        self.declared.push(at, meaning)
    }

    /// The name in the declaration of a name in use.
    pub fn declaration_of(&self, name: &Name) -> Option<Span>
        ensures { result ≡ spec.declaration_of self.now.names name.now }
    {
        self.names.get().declaration_of(name)
    }

    /// What is declared where a name begins.
    pub fn meaning_at(&self, at: u32) -> &Meaning<'a>
        ensures { result.now ≡ spec.at_place self.now.declared at }
    {
        if let Some(meaning) = self.declared.get(at) {
            return meaning;
        }
        self.names.get().other()
    }

    /// What a name means.
    pub fn meaning(&self, name: &Name) -> &Meaning<'a>
        ensures { result.now ≡ meanings_of self.now name.now }
    {
        match self.declaration_of(name) {
            None => self.names.get().other(),
            Some(decl) => {
                if decl.end == 0 {
                    return self.names.get().required_meaning(name.word.items());
                }
                self.meaning_at(decl.start)
            }
        }
    }
}
