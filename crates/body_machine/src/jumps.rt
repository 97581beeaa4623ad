//! Jumps and turns.

ghost use Rattle.std.specs.Prelude.{◌≡◌};
ghost use Rattle.estelle_model.specs.Operators.{bool_of};
ghost use Rattle.body_machine.specs.Rows.{Jumps, JumpsWhere, Turns};
ghost use Rattle.body_machine.specs.Steps.{jump};
ghost use Rattle.body_machine.specs.Seen.{seen, IsNext, Did};
ghost use Rattle.body_machine.specs.Ahead.{DidWith};

use crate::item::Item;
use crate::machine::Machine;
use crate::values::stuck;
use body_values::{Stop, bool_of};
use pascal_values::Value;

/// Goes to an address; back only where a unit was taken by `turn` since the last jump back.
fn go_to(machine: &mut Machine, to: u32) -> Result<(), Stop>
    ensures { IsNext (jump to (seen machine.old).active.stack (seen machine.old)) result (seen machine.new) }
{
    let to = to as usize;
    if to <= machine.active.address {
        if !machine.active.turned {
            return Err(stuck());
        }
        machine.active.turned = false;
    }
    machine.active.address = to;
    Ok(())
}

pub fn jump(machine: &mut Machine, to: u32) -> Result<(), Stop>
    ensures { Did (Jumps to) machine.old result machine.new }
{
    go_to(machine, to)
}

/// Goes to an address where a truth value that was on top is the wanted one.
pub fn jump_with(machine: &mut Machine, value: Value, wanted: bool, to: u32) -> Result<(), Stop>
    ensures { DidWith value (JumpsWhere wanted to) machine.old result machine.new }
{
    let truth = bool_of(&value)?;
    if truth == wanted {
        return go_to(machine, to);
    }
    machine.advance()?;
    Ok(())
}

/// Goes to an address where the truth value on top is the wanted one.
pub fn jump_where(machine: &mut Machine, wanted: bool, to: u32) -> Result<(), Stop>
    ensures { Did (JumpsWhere wanted to) machine.old result machine.new }
{
    match machine.active.stack.pop() {
        Some(Item::Datum(value)) => {
            let truth = bool_of(&value)?;
            if truth == wanted {
                return go_to(machine, to);
            }
            machine.advance()?;
            Ok(())
        }
        _ => Err(stuck()),
    }
}

/// Takes a unit of the budget.
pub fn turn(machine: &mut Machine) -> Result<(), Stop>
    ensures { Did Turns machine.old result machine.new }
{
    machine.walk.spend()?;
    machine.active.turned = true;
    machine.advance()?;
    Ok(())
}
