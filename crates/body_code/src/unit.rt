//! Units of code: what a routine, an initialization or a part of a flat transition is compiled to.

use crate::instrs::Instrs;
use crate::shared::Shared;
use estelle_tree::Word;
use pascal_values::Shape;

/// What a unit is for. Bodies are numbered from 0 in text order, routines from 0 in their body, transitions from 1. Names are
/// those that are declared.
#[derive(Debug)]
pub enum Heading {
    /// The units behind it are those of this body, up to the next such heading. Its own unit has no instructions.
    Body { body: u32, name: Word },
    Routine { routine: u32, name: Word },
    Initialize,
    Guard { trans: u32 },
    Delay { trans: u32 },
    Block { trans: u32 },
}

impl Drop for Heading {
    fn drop(self) {
        match self {
            Heading::Body { body: _, name: _ } => {}
            Heading::Routine {
                routine: _,
                name: _,
            } => {}
            Heading::Initialize => {}
            Heading::Guard { trans: _ } => {}
            Heading::Delay { trans: _ } => {}
            Heading::Block { trans: _ } => {}
        }
    }
}

/// How a unit is entered: as its heading says, without names.
#[derive(Clone, Copy, Debug, PartialEq, Eq, Hash)]
pub enum Entry {
    Routine(u32),
    Initialize,
    Guard(u32),
    Delay(u32),
    Block(u32),
}

/// A local of a unit: a variable of a shape, or by reference the place of one.
#[derive(Debug)]
pub struct Local {
    pub shape: Shape,
    pub by_ref: bool,
}

impl Drop for Local {
    fn drop(self) {
        let Local {
            shape: _,
            by_ref: _,
        } = self;
    }
}

/// Code with what it is for. The locals of a routine begin with its parameters, those of a guard, delay or block with the
/// parameters of its interaction.
pub struct CodeUnit {
    pub heading: Heading,
    pub locals: Shared<Local>,
    pub instrs: Instrs,
}

impl Drop for CodeUnit {
    fn drop(self) {
        let CodeUnit {
            heading: _,
            locals: _,
            instrs: _,
        } = self;
    }
}
