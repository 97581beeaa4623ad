//! The names of one scope.

ghost use Rattle.std.specs.Prelude.{◌≡◌, [], OnOk};
ghost use Rattle.std.specs.Option.{option_copied};
ghost use Rattle.std.specs.Map.{lookup};
ghost use Rattle.std.specs.Str.{bytes_eq};
ghost use Rattle.scope_rules.specs.Visible as visible;
ghost use Rattle.scope_rules.specs.Scopes as spec;
ghost use Rattle.scope_names.specs.Common as common;

use indexmap::IndexMap;
use scope_rules::Declared;
use std::alloc::{AllocError, Global};
use std::marker::Model;

/// The names of a scope, each with its declaration, seen as that list.
pub struct NameTable {
    names: IndexMap<Vec<u8>, Declared>,
}

impl Drop for NameTable {
    fn drop(self) {
        let NameTable { names: _ } = self;
    }
}

impl Model for NameTable {
    ghost use Rattle.std.specs.Prelude.{map};
    ghost use Rattle.scope_rules.specs.Visible.{Scope};

    ghost Value = { Scope };

    ghost view = { λ t. map (λ e. (e.0.items, e.1)) t.names.entries };
}

/// The one of two declarations that comes first in the text.
pub fn earlier(d: Declared, e: Declared) -> Declared
    ensures { result ≡ visible.earlier d e }
{
    if e.at.start < d.at.start { e } else { d }
}

/// What a name is declared as, with one more declaration of it.
fn first_of(was: Option<Declared>, d: Declared) -> Declared
    ensures { result ≡ common.first_of was d }
{
    match was {
        Some(e) => earlier(e, d),
        None => d,
    }
}

/// Whether a name stands among others, and not among those that are left out.
fn is_among(word: &[u8], others: &NameTable, without: &NameTable) -> bool
    ensures { result ≡ common.is_among word.now others.now without.now }
{
    others.find(word).is_some() && !without.find(word).is_some()
}

impl NameTable {
    pub fn new(alloc: Global) -> NameTable
        ensures { result ≡ [] }
    {
        NameTable {
            names: IndexMap::new(alloc),
        }
    }

    /// What a name is declared as.
    pub fn find(&self, word: &[u8]) -> Option<Declared>
        ensures { result ≡ visible.in_names word.now self.now }
    {
        self.names.get(word).copied()
    }

    /// One more declaration.
    pub fn declare(&mut self, alloc: Global, word: &[u8], d: Declared) -> Result<(), AllocError>
        ensures { OnOk result (self.new ≡ spec.declared word.now d self.old) }
    {
        let kept = first_of(self.find(word), d);
        self.names.insert(word.to_vec(alloc)?, kept)?;
        Ok(())
    }

    /// Whether the name at a place of the table stands there too, and is not left out.
    fn is_in(&self, i: usize, others: &NameTable, without: &NameTable) -> bool
        ensures { result ≡ common.at_shares self.now i others.now without.now }
    {
        match self.names.get_index(i) {
            None => false,
            Some((word, _)) => is_among(word, others, without),
        }
    }

    fn some_is_in(&self, others: &NameTable, without: &NameTable) -> bool
        ensures { result ≡ common.shares self.now others.now without.now }
    {
        for i in 0..self.names.len() {
            if self.is_in(i, others, without) {
                return true;
            }
        }
        false
    }

    /// Whether some name stands here and there, and is not left out, in the time of the smaller of both.
    #[tactic(auto, using(crate::proofs::Symmetry::shares_symmetric))]
    pub fn shares(&self, others: &NameTable, without: &NameTable) -> bool
        ensures { result ≡ common.shares self.now others.now without.now }
    {
        if others.names.len() < self.names.len() {
            return others.some_is_in(self, without);
        }
        self.some_is_in(others, without)
    }
}
