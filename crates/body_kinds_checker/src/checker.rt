//! The check of a code.

ghost use Rattle.std.specs.Prelude.{◌≡◌, true, None, Some, IfOk};
ghost use Rattle.body_code.specs.Units as units;
ghost use Rattle.body_program_numbers.specs.Numbering.{numbers_of};
ghost use Rattle.body_kinds.specs.Kinded.{IsKinded};
ghost use Rattle.body_kinds.specs.Good.{HasGoodKinds};
ghost use Rattle.body_unit_kinds.specs.Seen.{claimed};
ghost use Rattle.body_unit_kinds.specs.Effects.{AreVariables};
ghost use Rattle.body_kinds_checker.specs.Placed.{IsGood};

use crate::claiming::claims_of;
use crate::entries::is_for;
use crate::places::{body_behind, place_of};
use crate::presence::has_units;
use crate::variables::variables_of;
use body_code::{Code, CodeUnit, Entry};
use body_numbers::Numbers;
use body_program::Program;
use body_program_numbers::Numbering;
use body_unit_kinds::{Claims, Here};
use estelle_tree::{Items, Sequence};
use pascal_values::Shape;
use std::alloc::{AllocError, Global};

/// Whether the unit at a place is fine with what is claimed of it, and that is what it is for.
fn is_good(
    alloc: Global,
    program: &Program,
    numbers: &Numbers,
    code: &Code,
    variables: &[Items<Shape>],
    claims: &Claims,
    body: u32,
    entry: Entry,
    unit: &CodeUnit,
) -> Result<bool, AllocError>
    requires { AreVariables program.now variables.now }
    ensures { IfOk result (λ good. good ≡ true → IsGood program.now numbers.now code.now (claimed claims.now) (Some (body, entry)) unit.now) }
{
    match claims.get(body, entry) {
        None => Ok(false),
        Some(claim) => {
            let here = Here {
                bodies: program.bodies(),
                numbers,
                code,
                variables,
                claims,
                body,
                unit,
                claim,
            };
            let kinded = body_unit_kinds::is_kinded(alloc, &here)?;
            Ok(kinded && is_for(program, body, entry, unit, claim.result.items()))
        }
    }
}

/// The same, where one stands at no place too.
fn is_placed_good(
    alloc: Global,
    program: &Program,
    numbers: &Numbers,
    code: &Code,
    variables: &[Items<Shape>],
    claims: &Claims,
    place: Option<(u32, Entry)>,
    unit: &CodeUnit,
) -> Result<bool, AllocError>
    requires { AreVariables program.now variables.now }
    ensures { IfOk result (λ good. good ≡ true → IsGood program.now numbers.now code.now (claimed claims.now) place unit.now) }
{
    match place {
        None => Ok(true),
        Some((body, entry)) => is_good(
            alloc, program, numbers, code, variables, claims, body, entry, unit,
        ),
    }
}

/// Whether each unit is, with what is claimed of all.
fn are_good(
    alloc: Global,
    program: &Program,
    numbers: &Numbers,
    code: &Code,
    variables: &[Items<Shape>],
    claims: &Claims,
) -> Result<bool, AllocError>
    requires { AreVariables program.now variables.now }
    ensures { IfOk result (λ good. good ≡ true → IsKinded program.now numbers.now code.now (claimed claims.now)) }
{
    let units = code.items();
    let mut here = None;
    for i in 0..units.len() {
        let unit = &units[i];
        let place = place_of(here, &unit.heading);
        if !is_placed_good(
            alloc, program, numbers, code, variables, claims, place, unit,
        )? {
            return Ok(false);
        }
        here = body_behind(here, &unit.heading);
    }
    Ok(true)
}

/// Whether a code is of good kinds. Where it is, nothing is ever stuck that runs by it in a situation that the specification allows. One
/// that is told false may be of good kinds by claims and stacks that are not found. It takes memory for the stacks of one unit at a time.
pub fn is_kinded(alloc: Global, numbering: &Numbering, code: &Code) -> Result<bool, AllocError>
    ensures { IfOk result (λ kinded. kinded ≡ true → HasGoodKinds numbering.now (numbers_of numbering.now) code.now) }
{
    let program = numbering.program();
    let Ok(count) = u32::try_from(numbering.bodies()) else {
        return Ok(false);
    };
    if !has_units(program, code, count) {
        return Ok(false);
    }
    let variables = variables_of(alloc, program.bodies(), count)?;
    let claims = claims_of(alloc, numbering, code)?;
    let numbers = numbering.numbers();
    are_good(alloc, program, numbers, code, variables.items(), &claims)
}
