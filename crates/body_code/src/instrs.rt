//! The instructions of a unit.

ghost use Rattle.std.specs.Prelude.{◌≡◌, [], ◌++◌, length, slice_get};
ghost use Rattle.std.specs.Option.{option_copied};

use crate::instr::Instr;
use crate::shared::Shared;
use estelle_tree::{Items, Sequence};
use std::alloc::Global;
use std::marker::Model;

/// Instructions in order, by their addresses from 0. Units may share what their instructions end with.
pub struct Instrs {
    own: Items<Instr>,
    rest: Shared<Instr>,
}

impl Drop for Instrs {
    fn drop(self) {
        let Instrs { own: _, rest: _ } = self;
    }
}

impl Model for Instrs {
    ghost use Rattle.std.specs.Prelude.{List, ◌++◌};
    ghost use Rattle.std.specs.Coded.{coded_list};
    ghost use Rattle.body_code.specs.declared.instr.Instr.{Instr};
    ghost use Rattle.body_code.specs.contracts.instr.Instr as of_instr;

    ghost Value = { List Instr };

    ghost coded = { coded_list of_instr.the_row.coded };

    ghost view = { λ i. i.own ++ i.rest };
}

impl Instrs {
    /// No instructions. It takes no memory.
    pub fn none(alloc: Global) -> Instrs
        ensures { result ≡ [] }
    {
        Instrs {
            own: Items::new(alloc),
            rest: Shared::none(),
        }
    }

    /// Instructions that no other unit shares. It takes no memory.
    pub fn of(own: Items<Instr>) -> Instrs
        ensures { result ≡ own }
    {
        Instrs {
            own,
            rest: Shared::none(),
        }
    }

    /// Instructions before those that other units may share. It takes no memory.
    pub fn before(own: Items<Instr>, rest: Shared<Instr>) -> Instrs
        ensures { result ≡ own ++ rest }
    {
        Instrs { own, rest }
    }

    pub fn len(&self) -> usize
        ensures { result ≡ length self.now }
    {
        let (own, rest) = self.parts();
        own.len() + rest.len()
    }

    /// The instruction at an address.
    pub fn get(&self, address: usize) -> Option<&Instr>
        ensures { option_copied result ≡ slice_get self.now address }
    {
        let own = self.own.len();
        if address < own {
            return self.own.get(address);
        }
        self.rest.items().get(address - own)
    }

    /// The instructions in two parts, those of the unit and those that it may share.
    pub(crate) fn parts(&self) -> (&[Instr], &[Instr])
        ensures { self.now ≡ result.0.now ++ result.1.now }
    {
        (self.own.as_slice(), self.rest.items())
    }
}
