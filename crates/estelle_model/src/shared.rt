//! What many names share: the type that they have, the statements that they run.

ghost use Rattle.std.specs.Prelude.{◌≡◌, IfOk};

use crate::denoter::Denoter;
use estelle_tree::Stmts;
use std::alloc::{AllocError, Global};
use std::marker::Model;
use std::sync::Arc;

/// A type denoter that is shared by all that have it.
pub struct Type {
    denoter: Arc<Denoter>,
}

impl Drop for Type {
    fn drop(self) {
        let Type { denoter: _ } = self;
    }
}

impl Model for Type {
    ghost use Rattle.estelle_model.specs.declared.denoter.Denoter.{Denoter};
    ghost use Rattle.estelle_model.specs.contracts.denoter.Denoter as codes_of;
    ghost use Rattle.std.specs.Coded.{codes};

    ghost Value = { Denoter };

    ghost coded = { Prim.hlevel (codes, codes_of.the_row.coded) };

    ghost view = { λ t. t.denoter.value };
}

impl Type {
    pub fn of(alloc: Global, denoter: Denoter) -> Result<Type, AllocError>
        ensures { IfOk result (λ shared. shared ≡ denoter) }
    {
        match Arc::new(alloc, denoter) {
            Ok(denoter) => Ok(Type { denoter }),
            Err(_) => Err(AllocError),
        }
    }

    /// One more owner of it. It takes no memory; it fails where the count of owners is full.
    pub fn share(&self) -> Result<Type, AllocError>
        ensures { IfOk result (λ shared. shared ≡ self.now) }
    {
        Ok(Type {
            denoter: self.denoter.clone()?,
        })
    }

    pub fn denoter(&self) -> &Denoter
        ensures { result.now ≡ self.now }
    {
        self.denoter.as_ref()
    }
}

/// The statements of a body where they stand in the tree.
#[derive(Drop)]
pub struct Statements<'a> {
    stmts: &'a Stmts,
}

impl<'a> Model for Statements<'a> {
    ghost use Rattle.estelle_tree.specs.declared.tree.statement.Stmts.{Stmts};
    ghost use Rattle.estelle_tree.specs.contracts.tree.statement.Stmts as codes_of;
    ghost use Rattle.std.specs.Coded.{codes};

    ghost Value = { Stmts };

    ghost coded = { Prim.hlevel (codes, codes_of.the_row.coded) };

    ghost view = { λ s. s.stmts.now };
}

impl<'a> Statements<'a> {
    pub fn of(stmts: &'a Stmts) -> Statements<'a>
        ensures { result ≡ stmts.now }
    {
        Statements { stmts }
    }

    pub fn get(&self) -> &'a Stmts
        ensures { result.now ≡ self.now }
    {
        self.stmts
    }
}
