//! Codes that grow.

ghost use Rattle.std.specs.Prelude.{◌≡◌, [], ◌∷◌, ◌++◌, OnOk};

use body_code::{Code, CodeUnit};
use std::alloc::{AllocError, Global};
use std::marker::Model;

/// How many instructions a code may hold: transitions under one `any` have code of their own each.
const MOST: usize = 67_108_864;

/// A code to which units are added, seen as its units.
pub struct Units {
    pub alloc: Global,
    code: Code,
    /// How many more instructions may come.
    room: usize,
}

impl Drop for Units {
    fn drop(self) {
        let Units {
            alloc: _,
            code: _,
            room: _,
        } = self;
    }
}

impl Model for Units {
    ghost use Rattle.std.specs.Prelude.{List};
    ghost use Rattle.std.specs.Coded.{coded_list};
    ghost use Rattle.body_code.specs.declared.unit.CodeUnit.{CodeUnit};
    ghost use Rattle.body_code.specs.contracts.unit.CodeUnit as of_unit;

    ghost Value = { List CodeUnit };

    ghost coded = { coded_list of_unit.the_row.coded };

    ghost view = { λ u. u.code };
}

impl Units {
    /// No units. It takes no memory.
    pub fn none(alloc: Global) -> Units
        ensures { result ≡ [] }
    {
        Units {
            alloc,
            code: Code::none(alloc),
            room: MOST,
        }
    }

    /// One more unit. Where its instructions have no room, it is want of memory.
    pub fn push(&mut self, unit: CodeUnit) -> Result<(), AllocError>
        ensures { OnOk result (self.new ≡ self.old ++ unit ∷ []) }
    {
        let count = unit.instrs.len();
        if self.room < count {
            return Err(AllocError);
        }
        self.room -= count;
        self.code.push(unit)
    }

    pub fn into_code(self) -> Code
        ensures { result ≡ self }
    {
        let Units {
            alloc: _,
            code,
            room: _,
        } = self;
        code
    }
}
