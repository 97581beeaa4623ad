//! The routines that need an instance of their body: those that name it, and so all that call them.

use crate::places::{body_behind, place_of};
use body_code::{CodeUnit, Entry, Instr};
use body_unit_kinds::Claims;
use estelle_tree::Items;
use std::alloc::{AllocError, Global};

/// A call by the number of the unit that calls, and the call before it of the same routine.
#[derive(Clone, Copy)]
struct CalledBy {
    caller: usize,
    before: Option<usize>,
}

/// Units by the numbers of their claims.
struct Opening {
    /// Those that were found to be open, each once.
    open: Items<usize>,
    calls: Items<CalledBy>,
    /// The last call of each unit.
    last: Items<Option<usize>>,
}

impl Drop for Opening {
    fn drop(self) {
        let Opening {
            open: _,
            calls: _,
            last: _,
        } = self;
    }
}

impl Opening {
    /// Of so many units.
    fn none(alloc: Global, count: usize) -> Result<Opening, AllocError> {
        let mut last = Items::new(alloc);
        for _ in 0..count {
            last.push(None)?;
        }
        Ok(Opening {
            open: Items::new(alloc),
            calls: Items::new(alloc),
            last,
        })
    }

    fn mark(&mut self, claims: &mut Claims, number: usize) -> Result<(), AllocError> {
        match claims.units.get_index_mut(number) {
            None => Ok(()),
            Some(claim) => {
                if claim.closed {
                    claim.closed = false;
                    return self.open.push(number);
                }
                Ok(())
            }
        }
    }

    fn note_call(&mut self, caller: usize, callee: usize) -> Result<(), AllocError> {
        if callee < self.last.len() {
            let before = self.last.get(callee).copied().flatten();
            let number = self.calls.len();
            self.last.set(callee, Some(number));
            return self.calls.push(CalledBy { caller, before });
        }
        Ok(())
    }

    /// Marks those that call an open one.
    fn mark_callers(&mut self, claims: &mut Claims, callee: usize) -> Result<(), AllocError> {
        let mut at = self.last.get(callee).copied().flatten();
        for _ in 0..self.calls.len() {
            match at {
                None => return Ok(()),
                Some(number) => match self.calls.get(number).copied() {
                    None => return Ok(()),
                    Some(call) => {
                        self.mark(claims, call.caller)?;
                        at = call.before;
                    }
                },
            }
        }
        Ok(())
    }

    /// Marks all that call open ones.
    fn mark_all(&mut self, claims: &mut Claims) -> Result<(), AllocError> {
        for i in 0..self.last.len() {
            match self.open.get(i).copied() {
                None => return Ok(()),
                Some(number) => self.mark_callers(claims, number)?,
            }
        }
        Ok(())
    }

    /// What an instruction of a unit tells: that the unit is open, or whom it calls.
    fn note(&mut self, claims: &mut Claims, unit: usize, instr: &Instr) -> Result<(), AllocError> {
        match instr {
            Instr::Call { body, routine, .. } => {
                match claims
                    .units
                    .get_index_of(&(*body, Entry::Routine(*routine)))
                {
                    None => Ok(()),
                    Some(callee) => self.note_call(unit, callee),
                }
            }
            _ => {
                if needs_instance(instr) {
                    return self.mark(claims, unit);
                }
                Ok(())
            }
        }
    }

    fn note_unit(
        &mut self,
        claims: &mut Claims,
        number: usize,
        unit: &CodeUnit,
    ) -> Result<(), AllocError> {
        for address in 0..unit.instrs.len() {
            match unit.instrs.get(address) {
                None => return Ok(()),
                Some(instr) => self.note(claims, number, instr)?,
            }
        }
        Ok(())
    }
}

/// Whether an instruction needs an instance of the body itself.
fn needs_instance(instr: &Instr) -> bool {
    match instr {
        Instr::Var(_) => true,
        Instr::Exp { .. } => true,
        Instr::Init { .. } => true,
        Instr::Release(_) => true,
        Instr::Connect(_, _) => true,
        Instr::Disconnect(_) => true,
        Instr::Attach { .. } => true,
        Instr::Detach(_) => true,
        Instr::Output { .. } => true,
        _ => false,
    }
}

/// Claims no longer that those are closed which are not.
pub fn open_all(alloc: Global, units: &[CodeUnit], claims: &mut Claims) -> Result<(), AllocError> {
    let mut opening = Opening::none(alloc, claims.units.len())?;
    let mut here = None;
    for unit in units {
        if let Some((body, entry)) = place_of(here, &unit.heading) {
            if let Some(number) = claims.units.get_index_of(&(body, entry)) {
                opening.note_unit(claims, number, unit)?;
            }
        }
        here = body_behind(here, &unit.heading);
    }
    opening.mark_all(claims)
}
