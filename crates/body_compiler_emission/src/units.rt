//! Units of code: routines, blocks and clauses.

ghost use Rattle.std.specs.Prelude.{◌≡◌, [], ◌++◌, true, IfOk, OnOk, length, map};
ghost use Rattle.estelle_model.specs.Meant.{result_types};
ghost use Rattle.estelle_model.specs.declared.meaning.Passing.TheVariants.{ByValue};
ghost use Rattle.meaning_table.specs.Known.{meanings_of};
ghost use Rattle.body_compiler_pieces.specs.UnitCode.{IsMadeOf, IsUnit, IsClause};
ghost use Rattle.body_compiler_pieces.specs.Pieces.{one};
ghost use Rattle.body_code.specs.declared.instr.Instr.TheVariants as op;
ghost use Rattle.pascal_values.specs.declared.value.Value.TheVariants as pascal;
ghost use Rattle.body_compiler_emission.specs.Drafts.{grown};
ghost use Rattle.body_compiler_emission.specs.Known.{known_in};
ghost use Rattle.body_compiler_emission.specs.EmittedStatements as emitted;
ghost use Rattle.body_compiler_emission.specs.EmittedStatements.{lent};

use crate::draft::{Draft, behind, number};
use crate::expressions::expr;
use crate::scope::Scope;
use crate::shapes::{parameters, push_result, push_variables};
use crate::statements::stmts;
use body_code::{CodeUnit, Heading, Instr};
use body_program_numbers::Numbering;
use body_values::result_number;
use estelle_model::{Passing, Routine, Type};
use estelle_tree::{Expr, Items, Sequence};
use meaning_table::Table;
use pascal_values::Value;
use std::alloc::{AllocError, Global};

/// How many variables stand behind the parameters: a function's result is the last.
fn own_count(routine: &Routine) -> Result<u32, AllocError>
    ensures { IfOk result (λ n. n ≡ length (routine.now.locals ++ result_types routine.now.result)) }
{
    let locals = number(routine.locals.len())?;
    match &routine.result {
        None => Ok(locals),
        Some(_) => behind(locals, 1),
    }
}

/// At last a function's result is loaded.
#[tactic(auto, using(crate::proofs::UnitSteps::result_loaded, crate::proofs::UnitSteps::no_result))]
fn load_result(scope: &Scope, unit: &mut Draft, routine: &Routine) -> Result<(), AllocError>
    ensures { OnOk result (unit.new ≡ grown (emitted.result_code scope.now routine.now) unit.old) }
{
    match &routine.result {
        None => Ok(()),
        Some(_) => {
            let local = scope.local(number(result_number(routine))?)?;
            unit.push(Instr::Loc(local))?;
            unit.push(Instr::Load)
        }
    }
}

/// The unit of a routine, of a block or of an initialization of a body. The table tells what names mean there, where those of an
/// `any` clause have values. The types of the routine's var parameters come in order.
pub fn routine_unit(
    alloc: Global,
    table: &Table,
    numbering: &Numbering,
    body: u32,
    heading: Heading,
    routine: &Routine,
    references: &[Type],
) -> Result<CodeUnit, AllocError>
    ensures unit { IfOk result (λ unit. IsUnit (known_in numbering.now (meanings_of table.now)) body routine.now unit) }
    ensures heading { IfOk result (λ unit. unit.heading ≡ heading) }
{
    let mut locals = parameters(alloc, routine.parameters.items(), references)?;
    push_variables(alloc, &mut locals, routine.locals.items())?;
    push_result(alloc, &mut locals, &routine.result)?;
    let own = own_count(routine)?;
    let scope = Scope::new(
        alloc,
        table,
        numbering,
        body,
        routine.parameters.items(),
        own as usize,
    )?;
    let mut unit = Draft::new(alloc, locals);
    stmts(&scope, &mut unit, routine.body.get())?;
    load_result(&scope, &mut unit, routine)?;
    let done = unit.finish(alloc, heading)?;
    Ok(done)
}

/// Expressions one after another.
fn values(scope: &Scope, unit: &mut Draft, exprs: &[&Expr]) -> Result<(), AllocError>
    ensures { OnOk result (unit.new ≡ grown (emitted.clause scope.now (lent exprs.now)) unit.old) }
{
    for each in exprs {
        expr(scope, unit, each)?;
    }
    Ok(())
}

/// Parameters by value of some types.
fn by_value(alloc: Global, types: &[Type]) -> Result<Items<Passing>, AllocError>
    ensures { IfOk result (λ ps. ps ≡ map ByValue types.now) }
{
    let mut passed = Items::new(alloc);
    for type_ in types {
        passed.push(Passing::ByValue(type_.share()?))?;
    }
    Ok(passed)
}

/// The unit of the expressions of a clause of a body, under the interaction that is received.
pub fn clause_unit(
    alloc: Global,
    table: &Table,
    numbering: &Numbering,
    body: u32,
    heading: Heading,
    received: &[Type],
    exprs: &[&Expr],
) -> Result<CodeUnit, AllocError>
    ensures unit { IfOk result (λ unit. IsClause (known_in numbering.now (meanings_of table.now)) body received.now (lent exprs.now) unit) }
    ensures heading { IfOk result (λ unit. unit.heading ≡ heading) }
{
    let passed = by_value(alloc, received)?;
    let locals = parameters(alloc, passed.as_slice(), &[])?;
    let scope = Scope::new(alloc, table, numbering, body, passed.as_slice(), 0)?;
    let mut unit = Draft::new(alloc, locals);
    values(&scope, &mut unit, exprs)?;
    let done = unit.finish(alloc, heading)?;
    Ok(done)
}

/// The unit of a clause that is always true, under the interaction that is received.
pub fn true_unit(alloc: Global, heading: Heading, received: &[Type]) -> Result<CodeUnit, AllocError>
    ensures unit { IfOk result (λ unit. IsMadeOf (map ByValue received.now) [] (one (op.Push (pascal.Bool true))) unit) }
    ensures heading { IfOk result (λ unit. unit.heading ≡ heading) }
{
    let passed = by_value(alloc, received)?;
    let locals = parameters(alloc, passed.as_slice(), &[])?;
    let mut unit = Draft::new(alloc, locals);
    unit.push(Instr::Push(Value::Bool(true)))?;
    let done = unit.finish(alloc, heading)?;
    Ok(done)
}
