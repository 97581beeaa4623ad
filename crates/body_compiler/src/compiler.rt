//! The compiler of a specification.

ghost use Rattle.std.specs.Prelude.{◌≡◌, IfOk};
ghost use Rattle.estelle_model.specs.Subject.{meant};
ghost use Rattle.body_machine_meaning.specs.Faithful.{IsFaithful};
ghost use Rattle.body_kinds.specs.Good.{HasGoodKinds};
ghost use Rattle.body_program_numbers.specs.Numbering.{numbers_of};
ghost use Rattle.body_compiler_laws.specs.Codes.{IsCompiled};
ghost use Rattle.body_compiler_emission.specs.Known.{known_in};

use crate::bodies::put_body;
use crate::units::Units;
use body_code::Code;
use body_compiler_laws::compiled_codes_are_faithful;
use body_kinds_checker::is_kinded;
use body_program_numbers::Numbering;
use std::alloc::{AllocError, Global};

/// The units of all bodies, in the order of their numbers.
fn all_units(alloc: Global, numbering: &Numbering) -> Result<Units, AllocError>
    ensures { IfOk result (λ units. IsCompiled numbering.now (numbers_of numbering.now) (known_in numbering.now (meant numbering.now)) units) }
{
    let bodies = numbering.program().bodies();
    let mut units = Units::none(alloc);
    for number in 0..u32::MAX {
        match bodies.get(number) {
            None => return Ok(units),
            Some(known) => put_body(&mut units, numbering, number, known)?,
        }
    }
    Err(AllocError)
}

/// Compiles the bodies of a specification. The error is want of memory, as which a code of more than 2^26 instructions is told too. So is
/// what no accepted specification has, which is tested and not proved: a routine that is declared as something else, a name of `any` at
/// whose place something else is declared, what has no code, and a code that is not found to be of good kinds.
pub fn compile(alloc: Global, numbering: &Numbering) -> Result<Code, AllocError>
    ensures faithful { IfOk result (λ code. IsFaithful numbering.now (numbers_of numbering.now) code) }
    ensures kinds { IfOk result (λ code. HasGoodKinds numbering.now (numbers_of numbering.now) code) }
{
    let units = all_units(alloc, numbering)?;
    compiled_codes_are_faithful();
    let code = units.into_code();
    if !is_kinded(alloc, numbering, &code)? {
        return Err(AllocError);
    }
    Ok(code)
}
