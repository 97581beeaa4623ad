//! Units that run.

ghost use Rattle.std.specs.Prelude.{◌≡◌, IfOk};

use crate::stack::Stack;
use body_code::CodeUnit;
use estelle_model::Environment;
use estelle_tree::Path;
use std::alloc::{AllocError, Global};

/// What comes behind the end of a unit.
#[derive(Drop)]
pub enum Return {
    /// A block, a guard or a delay: nothing.
    ToNone,
    /// A routine: the unit that called it.
    ToCaller,
    /// An initialization: the child takes its state, and then a module variable of its parent holds it.
    ToParent {
        variable: u32,
        body: u32,
        child: Path,
    },
}

/// A unit that runs.
pub struct Activation<'a> {
    pub body: u32,
    pub unit: &'a CodeUnit,
    pub here: Environment,
    pub address: usize,
    pub stack: Stack,
    pub turned: bool,
    pub return_to: Return,
}

impl Activation<'_> {
    /// A copy of the path of its instance.
    pub(crate) fn own_path(&mut self, alloc: Global) -> Result<Path, AllocError>
        ensures ok { IfOk result (λ path. path ≡ self.old.here.path) }
        ensures same { self.new ≡ self.old }
    {
        self.stack.copy_path(alloc, &self.here.path)
    }

    /// What stands on its stack, and what comes behind its end.
    pub fn into_left(self) -> (Stack, Return)
        ensures stack { result.0 ≡ self.entry.stack }
        ensures return_to { result.1 ≡ self.entry.return_to }
    {
        let Activation {
            body: _,
            unit: _,
            here,
            address: _,
            mut stack,
            turned: _,
            return_to,
        } = self;
        stack.keep_path(here.path);
        (stack, return_to)
    }
}

impl Drop for Activation<'_> {
    fn drop(self) {
        let Activation {
            body: _,
            unit: _,
            here: _,
            address: _,
            stack: _,
            turned: _,
            return_to: _,
        } = self;
    }
}
