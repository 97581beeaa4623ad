//! The machine, and how it goes on behind an instruction.

ghost use Rattle.std.specs.Prelude.{◌≡◌, ◌∷◌, OnOk};
ghost use Rattle.body_machine.specs.Steps.{behind};
ghost use Rattle.body_machine.specs.Seen.{seen};

use crate::activation::Activation;
use crate::item::Item;
use crate::stack::Stack;
use body_state::Walk;
use std::alloc::AllocError;

/// A run of a unit, and of those that it calls, before or after one of its instructions.
pub struct Machine<'a> {
    pub walk: Walk<'a>,
    pub active: Activation<'a>,
    /// The innermost last.
    pub waiting: Vec<Activation<'a>>,
}

impl Drop for Machine<'_> {
    fn drop(self) {
        let Machine {
            walk: _,
            active: _,
            waiting: _,
        } = self;
    }
}

impl<'a> Machine<'a> {
    /// Goes on behind the instruction at the address. No memory holds more instructions than addresses can tell.
    pub fn advance(&mut self) -> Result<(), AllocError>
        ensures { OnOk result (seen self.new ≡ record (seen self.old) { active = behind (seen self.old).active.stack (seen self.old).active }) }
    {
        match self.active.address.checked_add(1) {
            None => Err(AllocError),
            Some(address) => {
                self.active.address = address;
                Ok(())
            }
        }
    }

    /// Goes on with an item on top.
    pub fn leave(&mut self, item: Item) -> Result<(), AllocError>
        ensures { OnOk result (seen self.new ≡ record (seen self.old) { active = behind (item ∷ (seen self.old).active.stack) (seen self.old).active }) }
    {
        self.active.stack.push(item)?;
        self.advance()
    }

    /// What stands on the stack of the unit that runs, and the walk.
    pub fn into_left(self) -> (Stack, Walk<'a>)
        ensures stack { result.0 ≡ self.entry.active.stack }
        ensures walk { result.1 ≡ self.entry.walk }
    {
        let Machine {
            walk,
            active,
            waiting: _,
        } = self;
        let (stack, _) = active.into_left();
        (stack, walk)
    }
}
