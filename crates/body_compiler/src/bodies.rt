//! The units of bodies.

ghost use Rattle.std.specs.Prelude.{◌≡◌, ◌+◌, map, option_map, OnOk};
ghost use Rattle.std.specs.Option.{option_copied};
ghost use Rattle.body_code.specs.declared.unit.Entry.TheVariants as entry;
ghost use Rattle.estelle_model.specs.Subject.{no_statements, nothing_to_do, body, initialization, begins, meant};
ghost use Rattle.body_state.specs.Bodies.{module_body, initialization_of};
ghost use Rattle.body_program_numbers.specs.Numbering.{routines_of};
ghost use Rattle.body_compiler_laws.specs.Compiled.{HasUnit};
ghost use Rattle.body_compiler_laws.specs.Order.{IsOpen};
ghost use Rattle.body_compiler_emission.specs.Known.{known_in};
ghost use Rattle.body_compiler.specs.Whole.{IsFree, Grown, Comes, HasRoutine, HasRoutines, HasBody};

use crate::references::references;
use crate::transitions::put_transitions;
use crate::units::Units;
use body_code::{CodeUnit, Heading, Instrs, Shared};
use body_compiler_emission::routine_unit;
use body_program_numbers::Numbering;
use body_state::{Initialization, ModuleBody};
use estelle_model::{Meaning, Routine, Statements};
use estelle_tree::{Items, Routine as RoutineTree, Sequence, Span, Stmts, Word};
use std::alloc::{AllocError, Global};

/// A body begins, with its word.
fn begin_body(units: &mut Units, body: u32, name: Word) -> Result<(), AllocError>
    requires { IsFree units.old body }
    ensures { OnOk result (Comes units.old units.new body 0 0) }
{
    let unit = CodeUnit {
        heading: Heading::Body { body, name },
        locals: Shared::none(),
        instrs: Instrs::none(units.alloc),
    };
    units.push(unit)?;
    Ok(())
}

/// The unit of a routine. That it is declared as anything else, no accepted specification has, which is tested.
fn put_routine(
    units: &mut Units,
    numbering: &Numbering,
    body: u32,
    routine: u32,
    tree: &RoutineTree,
) -> Result<(), AllocError>
    requires { IsOpen units.old body 0 routine }
    ensures comes { OnOk result (Comes units.old units.new body 0 (routine + 1)) }
    ensures has { OnOk result (HasRoutine numbering.now units.new body routine tree.now) }
{
    let table = numbering.program().table();
    match table.meaning_at(tree.name.span.start) {
        Meaning::Called(called) => {
            let name = tree.name.word.copy(units.alloc)?;
            let heading = Heading::Routine { routine, name };
            let references = references(units.alloc, table, tree)?;
            let unit = routine_unit(
                units.alloc,
                table,
                numbering,
                body,
                heading,
                called,
                references.as_slice(),
            )?;
            units.push(unit)?;
            Ok(())
        }
        _ => Err(AllocError),
    }
}

/// The units of routines, in the order of their declaration.
fn put_routines(
    units: &mut Units,
    numbering: &Numbering,
    body: u32,
    trees: &[&RoutineTree],
) -> Result<(), AllocError>
    requires { IsOpen units.old body 0 0 }
    ensures comes { OnOk result (Comes units.old units.new body 1 0) }
    ensures has { OnOk result (HasRoutines numbering.now units.new body (map (λ r. r.now) trees.now)) }
{
    let mut number: u32 = 0;
    for tree in trees {
        put_routine(units, numbering, body, number, tree)?;
        if number == u32::MAX {
            return Err(AllocError);
        }
        number += 1;
    }
    Ok(())
}

/// The unit of the block of an initialization.
fn put_block(
    units: &mut Units,
    numbering: &Numbering,
    body: u32,
    block: &Routine,
) -> Result<(), AllocError>
    requires { IsOpen units.old body 1 0 }
    ensures comes { OnOk result (Comes units.old units.new body 2 3) }
    ensures has { OnOk result (HasUnit units.new (known_in numbering.now (meant numbering.now)) body entry.Initialize block.now) }
{
    let table = numbering.program().table();
    let heading = Heading::Initialize;
    let unit = routine_unit(units.alloc, table, numbering, body, heading, block, &[])?;
    units.push(unit)?;
    Ok(())
}

/// No statements.
fn no_statements(alloc: Global) -> Stmts
    ensures { result ≡ no_statements }
{
    Stmts {
        stmts: Items::new(alloc),
        span: Span { start: 0, end: 0 },
    }
}

/// The block of an initialization that is not written.
fn nothing_to_do(alloc: Global, nothing: &Stmts) -> Routine<'_>
    requires { nothing.now ≡ no_statements }
    ensures { result ≡ nothing_to_do.block }
{
    Routine {
        parameters: Items::new(alloc),
        locals: Items::new(alloc),
        result: None,
        body: Statements::of(nothing),
    }
}

/// The unit of the initialization of a body, which does nothing where none is written.
fn put_initialization(
    units: &mut Units,
    numbering: &Numbering,
    body: u32,
    first: Option<&Initialization>,
) -> Result<(), AllocError>
    requires free { IsOpen units.old body 1 0 }
    requires of_body { option_copied first ≡ option_map initialization_of (initialization numbering.now body) }
    ensures comes { OnOk result (Comes units.old units.new body 2 3) }
    ensures has { OnOk result (HasUnit units.new (known_in numbering.now (meant numbering.now)) body entry.Initialize (begins numbering.now body).block) }
{
    match first {
        Some(written) => {
            put_block(units, numbering, body, &written.block)?;
            Ok(())
        }
        None => {
            let nothing = no_statements(units.alloc);
            let routine = nothing_to_do(units.alloc, &nothing);
            put_block(units, numbering, body, &routine)?;
            Ok(())
        }
    }
}

/// The units of a body.
pub fn put_body(
    units: &mut Units,
    numbering: &Numbering,
    number: u32,
    known: &ModuleBody,
) -> Result<(), AllocError>
    requires free { IsFree units.old number }
    requires known { Some known.now ≡ option_map (module_body numbering.now number) (body numbering.now number) }
    ensures grown { OnOk result (Grown units.old units.new) }
    ensures free { OnOk result (IsFree units.new (number + 1)) }
    ensures has { OnOk result (HasBody numbering.now units.new number) }
{
    let name = match numbering.word(number) {
        None => return Err(AllocError),
        Some(word) => word.copy(units.alloc)?,
    };
    begin_body(units, number, name)?;
    put_routines(units, numbering, number, numbering.routines(number))?;
    put_initialization(units, numbering, number, known.initialization.as_ref())?;
    put_transitions(units, numbering, number)?;
    Ok(())
}
