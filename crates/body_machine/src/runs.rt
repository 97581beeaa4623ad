//! Runs of the machine.

ghost use Rattle.body_machine.specs.Seen.{seen};
ghost use Rattle.body_machine.specs.Runs.{HasRun};

use crate::ahead::steps;
use crate::machine::Machine;
use body_code::Code;
use body_numbers::Numbers;
use body_state::ModuleBodies;
use body_values::Stop;
use std::alloc::Global;

/// Runs units to the end of the outermost one.
pub fn run<'a>(
    alloc: Global,
    bodies: &ModuleBodies,
    numbers: &Numbers,
    code: &'a Code,
    machine: &mut Machine<'a>,
) -> Result<(), Stop>
    ensures { HasRun bodies.now numbers.now code.now (seen machine.old) result (seen machine.new) }
{
    loop {
        if !steps(alloc, bodies, numbers, code, machine)? {
            return Ok(());
        }
    }
}
