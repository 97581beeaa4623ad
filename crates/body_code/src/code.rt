//! Codes.

ghost use Rattle.std.specs.Prelude.{◌≡◌, ◌<◌, [], ◌∷◌, ◌++◌, length, slice_set, OnOk, OnErr};
ghost use Rattle.std.specs.Option.{option_copied};
ghost use Rattle.body_code.specs.Units.{unit_of};

use crate::places::{body_behind, find, note, place_of};
use crate::unit::{CodeUnit, Entry};
use estelle_tree::{Items, Sequence};
use indexmap::IndexMap;
use std::alloc::{AllocError, Global};
use std::marker::Model;

/// A code, seen as the list of its units in the listing's order.
pub struct Code {
    units: Items<CodeUnit>,
    /// The body of the unit that is pushed next.
    body: Option<u32>,
    /// The number of the first unit at each place.
    firsts: IndexMap<(u32, Entry), usize>,
    /// Whether these two are those of the units.
    is_known: bool,
}

impl Drop for Code {
    fn drop(self) {
        let Code {
            units: _,
            body: _,
            firsts: _,
            is_known: _,
        } = self;
    }
}

impl Model for Code {
    ghost use Rattle.std.specs.Prelude.{List, ◌≡◌, true};
    ghost use Rattle.std.specs.Coded.{coded_list};
    ghost use Rattle.body_code.specs.declared.unit.CodeUnit.{CodeUnit};
    ghost use Rattle.body_code.specs.contracts.unit.CodeUnit as of_unit;
    ghost use Rattle.body_code.specs.Firsts.{IsKnown};

    ghost Value = { List CodeUnit };

    ghost coded = { coded_list of_unit.the_row.coded };

    ghost view = { λ c. c.units };

    ghost invariant = { λ c. c.is_known ≡ true → IsKnown c.units c.body c.firsts.entries };
}

impl Code {
    /// No units. It takes no memory.
    pub fn none(alloc: Global) -> Code
        ensures { result ≡ [] }
    {
        Code {
            units: Items::new(alloc),
            body: None,
            firsts: IndexMap::new(alloc),
            is_known: true,
        }
    }

    /// The units in order.
    pub fn items(&self) -> &[CodeUnit]
        ensures { result.now ≡ self.now }
    {
        self.units.as_slice()
    }

    /// The first unit of a body with an entry. It takes constant time in a code in which `put_at` changed nothing.
    pub fn unit(&self, body: u32, entry: Entry) -> Option<&CodeUnit>
        ensures { option_copied result ≡ unit_of self.now body entry }
    {
        if self.is_known {
            return match self.firsts.get(&(body, entry)) {
                None => None,
                Some(number) => self.units.get(*number),
            };
        }
        find(self.units.as_slice(), body, entry)
    }

    pub fn push(&mut self, unit: CodeUnit) -> Result<(), AllocError>
        ensures ok { OnOk result (self.new ≡ self.old ++ unit ∷ []) }
        ensures err { OnErr result (self.new ≡ self.old) }
    {
        let number = self.units.len();
        let place = place_of(self.body, &unit.heading);
        let body = body_behind(self.body, &unit.heading);
        self.units.push(unit)?;
        match note(&mut self.firsts, place, number) {
            Ok(()) => {
                self.body = body;
                Ok(())
            }
            Err(error) => {
                let _ = self.units.pop();
                Err(error)
            }
        }
    }

    /// Puts a unit in the place of another. It takes no memory.
    pub fn put_at(&mut self, at: usize, unit: CodeUnit)
        requires { at < length self.old }
        ensures { self.new ≡ slice_set self.old at unit }
    {
        self.units.set(at, unit);
        self.is_known = false;
    }
}
