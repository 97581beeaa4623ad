//! What is declared at places of a text.

ghost use Rattle.std.specs.Prelude.{◌≡◌, ◌∷◌, [], ◌++◌, OnOk, OnErr};
ghost use Rattle.std.specs.Option.{option_copied};
ghost use Rattle.place_table.specs.Latest.{latest};

use estelle_lists::{Items, Sequence};
use indexmap::IndexMap;
use std::alloc::{AllocError, Global};
use std::marker::Model;

/// What is declared at places, seen as a list in order. A place may have several.
pub struct Places<V> {
    declared: Items<(u32, V)>,
    /// For each place the number of the latest.
    numbers: IndexMap<u32, usize>,
}

impl<V: Drop> Drop for Places<V> {
    fn drop(self) {
        let Places {
            declared: _,
            numbers: _,
        } = self;
    }
}

impl<V> Model for Places<V> {
    ghost use Rattle.std.specs.Prelude.{ℕ, List};
    ghost use Rattle.std.specs.Coded.{coded_list, coded×, coded_ℕ};
    ghost use Rattle.place_table.specs.Latest.{AreLatest};

    ghost Value = { List (ℕ × V) };

    ghost coded = { coded_list (coded× coded_ℕ V.code) };

    ghost view = { λ p. p.declared };

    ghost invariant = { λ p. AreLatest p.declared p.numbers.entries };
}

impl<V> Places<V> {
    /// Nothing is declared yet.
    pub fn new(alloc: Global) -> Places<V>
        ensures { result ≡ [] }
    {
        Places {
            declared: Items::new(alloc),
            numbers: IndexMap::new(alloc),
        }
    }

    /// The latest at a place.
    pub fn get(&self, at: u32) -> Option<&V>
        ensures { option_copied result ≡ latest at self.now }
    {
        match self.numbers.get(&at) {
            None => None,
            Some(number) => match self.declared.get(*number) {
                None => None,
                Some(declared) => Some(&declared.1),
            },
        }
    }
}

impl<V: Drop> Places<V> {
    /// One more, where a name begins.
    pub fn push(&mut self, at: u32, value: V) -> Result<(), AllocError>
        ensures pushed { OnOk result (self.new ≡ self.old ++ (at, value) ∷ []) }
        ensures kept { OnErr result (self.new ≡ self.old) }
    {
        let number = self.declared.len();
        self.declared.push((at, value))?;
        if self.numbers.insert(at, number).is_err() {
            let _ = self.declared.pop();
            return Err(AllocError);
        }
        Ok(())
    }
}
