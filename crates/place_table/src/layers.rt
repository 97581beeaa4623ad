//! Tables over others.

ghost use Rattle.std.specs.Prelude.{◌≡◌, ◌∷◌, [], ◌++◌, IfOk, OnOk, OnErr};
ghost use Rattle.std.specs.List.{flat_map};
ghost use Rattle.std.specs.Option.{option_copied};
ghost use Rattle.place_table.specs.Latest.{latest};

use crate::places::Places;
use estelle_lists::{Items, Sequence};
use std::alloc::{AllocError, Global};
use std::marker::Model;

/// What is declared at places, over what other tables have, seen as the list of all in order.
#[derive(Drop)]
pub struct Layers<'l, V> {
    /// The tables below, the lowest first.
    below: Items<&'l Places<V>>,
    own: Places<V>,
}

impl<'l, V> Model for Layers<'l, V> {
    ghost use Rattle.std.specs.Prelude.{ℕ, List, ◌++◌};
    ghost use Rattle.std.specs.List.{flat_map};
    ghost use Rattle.std.specs.Coded.{coded_list, coded×, coded_ℕ};

    ghost Value = { List (ℕ × V) };

    ghost coded = { coded_list (coded× coded_ℕ V.code) };

    ghost view = { λ t. flat_map (λ p. p.now) t.below ++ t.own };
}

/// The latest at a place in several tables, the lowest first.
fn find<'l, V>(tables: &[&'l Places<V>], at: u32) -> Option<&'l V>
    ensures { option_copied result ≡ latest at (flat_map (λ p. p.now) tables.now) }
{
    let mut i = tables.len();
    while 0 < i {
        i -= 1;
        if let Some(value) = tables[i].get(at) {
            return Some(value);
        }
    }
    None
}

impl<'l, V> Layers<'l, V> {
    /// Nothing is declared yet.
    pub fn new(alloc: Global) -> Layers<'l, V>
        ensures { result ≡ [] }
    {
        Layers {
            below: Items::new(alloc),
            own: Places::new(alloc),
        }
    }

    /// A table over this one, in which nothing more is declared yet.
    pub fn over(&self, alloc: Global) -> Result<Layers<'_, V>, AllocError>
        ensures { IfOk result (λ table. table ≡ self.now) }
    {
        let mut below = Items::new(alloc);
        for table in self.below.items() {
            below.push(*table)?;
        }
        below.push(&self.own)?;
        Ok(Layers {
            below,
            own: Places::new(alloc),
        })
    }

    /// The latest at a place.
    pub fn get(&self, at: u32) -> Option<&V>
        ensures { option_copied result ≡ latest at self.now }
    {
        if let Some(value) = self.own.get(at) {
            return Some(value);
        }
        find(self.below.items(), at)
    }
}

impl<'l, V: Drop> Layers<'l, V> {
    /// One more, where a name begins.
    pub fn push(&mut self, at: u32, value: V) -> Result<(), AllocError>
        ensures pushed { OnOk result (self.new ≡ self.old ++ (at, value) ∷ []) }
        ensures kept { OnErr result (self.new ≡ self.old) }
    {
        self.own.push(at, value)
    }
}
