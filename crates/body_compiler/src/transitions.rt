//! The units of transitions.

ghost use Rattle.std.specs.Prelude.{◌≡◌, ◌+◌, ◌*◌, ℕ, [], map, OnOk, IfOk};
ghost use Rattle.std.specs.Option.{option_copied};
ghost use Rattle.body_code.specs.declared.unit.Entry.TheVariants as entry;
ghost use Rattle.body_code.specs.declared.unit.Heading.TheVariants as heading;
ghost use Rattle.estelle_model.specs.declared.meaning.Passing.TheVariants.{ByValue};
ghost use Rattle.meaning_table.specs.Known.{meanings_of};
ghost use Rattle.body_program.specs.Programs.{block_in};
ghost use Rattle.body_compiler_pieces.specs.UnitCode.{IsMadeOf};
ghost use Rattle.body_compiler_laws.specs.Compiled.{HasUnit};
ghost use Rattle.body_compiler_laws.specs.Codes.{HasClause, AreApart, in_clause, provided_code, delay_code};
ghost use Rattle.body_compiler_laws.specs.Order.{IsOpen};
ghost use Rattle.body_compiler_emission.specs.Known.{known_in};
ghost use Rattle.body_compiler.specs.Whole.{Grown, IsFree, Comes, HasDelay, HasOne, HasNumbered};

use crate::units::Units;
use body_code::{CodeUnit, Heading};
use body_compiler_emission::{clause_unit, routine_unit, true_unit};
use body_program::with_choices;
use body_program_numbers::Numbering;
use estelle_model::{Meaning, Routine, Type};
use estelle_tree::{DelayHigh, Expr};
use flat_transitions::{Choice, Delay, Transition};
use meaning_table::Table;
use std::alloc::{AllocError, Global};

/// Tests that nothing else is declared at the places of the names that have values. No accepted specification has it otherwise, which
/// is tested.
fn test_apart(table: &Table, chosen: &[Choice]) -> Result<(), AllocError>
    ensures { OnOk result (AreApart table.now.declared chosen.now) }
{
    for choice in chosen {
        match table.meaning_at(choice.at()) {
            Meaning::Other => {}
            _ => return Err(AllocError),
        }
    }
    Ok(())
}

/// The unit of `provided`, which is true where none is written.
fn guard_unit(
    alloc: Global,
    table: &Table,
    numbering: &Numbering,
    body: u32,
    trans: u32,
    received: &[Type],
    provided: Option<&Expr>,
) -> Result<CodeUnit, AllocError>
    ensures unit { IfOk result (λ unit. IsMadeOf (map ByValue received.now) [] (provided_code (in_clause (known_in numbering.now (meanings_of table.now)) body received.now) (option_copied provided.entry)) unit) }
    ensures heading { IfOk result (λ unit. unit.heading ≡ heading.Guard trans) }
{
    let heading = Heading::Guard { trans };
    match provided {
        None => true_unit(alloc, heading, received),
        Some(condition) => clause_unit(
            alloc,
            table,
            numbering,
            body,
            heading,
            received,
            &[condition],
        ),
    }
}

/// The unit of a delay, whose low expression comes first.
fn delay_unit(
    alloc: Global,
    table: &Table,
    numbering: &Numbering,
    body: u32,
    trans: u32,
    received: &[Type],
    delay: &Delay,
) -> Result<CodeUnit, AllocError>
    ensures unit { IfOk result (λ unit. IsMadeOf (map ByValue received.now) [] (delay_code (in_clause (known_in numbering.now (meanings_of table.now)) body received.now) delay.now) unit) }
    ensures heading { IfOk result (λ unit. unit.heading ≡ heading.Delay trans) }
{
    let heading = Heading::Delay { trans };
    let low = delay.low();
    match delay.high() {
        Some(DelayHigh::Expr(high)) => clause_unit(
            alloc,
            table,
            numbering,
            body,
            heading,
            received,
            &[low, high],
        ),
        Some(DelayHigh::Star) => {
            clause_unit(alloc, table, numbering, body, heading, received, &[low])
        }
        None => clause_unit(alloc, table, numbering, body, heading, received, &[low]),
    }
}

/// It comes before the delay and the block.
fn put_guard(
    units: &mut Units,
    table: &Table,
    numbering: &Numbering,
    body: u32,
    trans: u32,
    received: &[Type],
    provided: Option<&Expr>,
) -> Result<(), AllocError>
    requires { IsOpen units.old body 2 (3 * trans) }
    ensures comes { OnOk result (Comes units.old units.new body 2 (3 * trans + 1)) }
    ensures has { OnOk result (HasClause units.new body (entry.Guard trans) received.now (provided_code (in_clause (known_in numbering.now (meanings_of table.now)) body received.now) (option_copied provided.entry))) }
{
    let unit = guard_unit(
        units.alloc,
        table,
        numbering,
        body,
        trans,
        received,
        provided,
    )?;
    units.push(unit)?;
    Ok(())
}

/// The unit of a delay, where one is written.
fn put_delay(
    units: &mut Units,
    table: &Table,
    numbering: &Numbering,
    body: u32,
    trans: u32,
    received: &[Type],
    delay: Option<&Delay>,
) -> Result<(), AllocError>
    requires { IsOpen units.old body 2 (3 * trans + 1) }
    ensures comes { OnOk result (Comes units.old units.new body 2 (3 * trans + 2)) }
    ensures has { OnOk result (HasDelay numbering.now (meanings_of table.now) units.new body trans received.now (option_copied delay.entry)) }
{
    match delay {
        None => Ok(()),
        Some(delay) => {
            let unit = delay_unit(units.alloc, table, numbering, body, trans, received, delay)?;
            units.push(unit)?;
            Ok(())
        }
    }
}

/// The unit of a block.
fn put_block(
    units: &mut Units,
    table: &Table,
    numbering: &Numbering,
    body: u32,
    trans: u32,
    block: &Routine,
) -> Result<(), AllocError>
    requires { IsOpen units.old body 2 (3 * trans + 2) }
    ensures comes { OnOk result (Comes units.old units.new body 2 (3 * trans + 3)) }
    ensures has { OnOk result (HasUnit units.new (known_in numbering.now (meanings_of table.now)) body (entry.Block trans) block.now) }
{
    let heading = Heading::Block { trans };
    let unit = routine_unit(units.alloc, table, numbering, body, heading, block, &[])?;
    units.push(unit)?;
    Ok(())
}

/// The units of a transition, compiled with the values of its `any` clause.
fn put_transition(
    units: &mut Units,
    numbering: &Numbering,
    body: u32,
    trans: u32,
    transition: &Transition,
    block: &Routine,
) -> Result<(), AllocError>
    requires free { IsOpen units.old body 2 (3 * trans) }
    requires block { block.now ≡ block_in numbering.now transition.now }
    ensures comes { OnOk result (Comes units.old units.new body 2 (3 * trans + 3)) }
    ensures has { OnOk result (HasOne numbering.now units.new body trans transition.now) }
{
    let known = numbering.program().table();
    let chosen = transition.chosen();
    test_apart(known, chosen)?;
    let table = with_choices(known, chosen)?;
    let received = transition.received();
    put_guard(
        units,
        &table,
        numbering,
        body,
        trans,
        received,
        transition.provided(),
    )?;
    put_delay(
        units,
        &table,
        numbering,
        body,
        trans,
        received,
        transition.delay(),
    )?;
    put_block(units, &table, numbering, body, trans, block)?;
    Ok(())
}

/// The units of the transition with a number.
fn put_numbered(
    units: &mut Units,
    numbering: &Numbering,
    body: u32,
    trans: u32,
) -> Result<(), AllocError>
    requires { IsOpen units.old body 2 (3 * trans) }
    ensures comes { OnOk result (Comes units.old units.new body 2 (3 * trans + 3)) }
    ensures has { OnOk result (HasNumbered numbering.now units.new body trans) }
{
    let program = numbering.program();
    match program.transition(body, trans) {
        None => Err(AllocError),
        Some(transition) => match program.block(body, trans) {
            None => Err(AllocError),
            Some(block) => {
                put_transition(units, numbering, body, trans, transition, block)?;
                Ok(())
            }
        },
    }
}

/// The units of all transitions of a body.
pub fn put_transitions(
    units: &mut Units,
    numbering: &Numbering,
    body: u32,
) -> Result<(), AllocError>
    requires { IsOpen units.old body 2 3 }
    ensures grown { OnOk result (Grown units.old units.new) }
    ensures free { OnOk result (IsFree units.new (body + 1)) }
    ensures has { OnOk result ((trans : ℕ) → HasNumbered numbering.now units.new body trans) }
{
    let count = numbering.program().transitions(body);
    for index in 0..count {
        put_numbered(units, numbering, body, index + 1)?;
    }
    Ok(())
}
