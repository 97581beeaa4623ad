//! Codes that are not of good kinds.

ghost use Rattle.std.specs.Prelude.{◌<◌, length};

use crate::codes::Of::{Block, Body, Guard, Initialize, Routine};
use crate::codes::Op::*;
use crate::codes::Row;
use crate::subject::{ASKED, are_all_kinded, are_kinded, is_block_kinded};
use std::alloc::{AllocError, Global};
use std::test::Fail as Failed;

#[test]
fn an_operand_that_is_not_there(rt: HostRuntime) -> Result<(), Failed> {
    assert!(rt; !is_block_kinded(rt.alloc(), &[Push(1), Add, Ret])?);
    Ok(())
}

#[test]
fn an_operand_of_another_kind(rt: HostRuntime) -> Result<(), Failed> {
    assert!(rt; !is_block_kinded(rt.alloc(), &[Var(0), Push(1), True, Add, Store(0), Ret])?);
    Ok(())
}

#[test]
fn a_value_of_another_kind_in_a_variable(rt: HostRuntime) -> Result<(), Failed> {
    assert!(rt; !is_block_kinded(rt.alloc(), &[Var(0), True, Store(0), Ret])?);
    Ok(())
}

#[test]
fn an_address_outside(rt: HostRuntime) -> Result<(), Failed> {
    assert!(rt; !is_block_kinded(rt.alloc(), &[Jump(2), Ret])?);
    Ok(())
}

#[test]
fn a_way_past_the_end(rt: HostRuntime) -> Result<(), Failed> {
    assert!(rt; !is_block_kinded(rt.alloc(), &[True, Jfalse(2)])?);
    Ok(())
}

// The jump back at address 2 is come to from the decision before it.
#[test]
fn a_jump_back_without_its_turn(rt: HostRuntime) -> Result<(), Failed> {
    assert!(rt; !is_block_kinded(rt.alloc(), &[True, Jfalse(3), Jump(0), Ret])?);
    Ok(())
}

#[test]
fn a_jump_to_a_jump_back(rt: HostRuntime) -> Result<(), Failed> {
    assert!(rt; !is_block_kinded(rt.alloc(), &[True, Jfalse(4), Jump(4), Turn, Jump(0), Ret])?);
    Ok(())
}

#[test]
fn a_variable_that_is_not_there(rt: HostRuntime) -> Result<(), Failed> {
    assert!(rt; !is_block_kinded(rt.alloc(), &[Var(9), Push(1), Store(0), Ret])?);
    Ok(())
}

#[test]
fn a_shape_that_is_not_there(rt: HostRuntime) -> Result<(), Failed> {
    assert!(rt; !is_block_kinded(rt.alloc(), &[Var(0), Push(1), Store(999), Ret])?);
    Ok(())
}

#[test]
fn an_interaction_that_is_not_there(rt: HostRuntime) -> Result<(), Failed> {
    assert!(rt; !is_block_kinded(rt.alloc(), &[Push(1), Output(1, 1), Ret])?);
    Ok(())
}

#[test]
fn too_few_arguments(rt: HostRuntime) -> Result<(), Failed> {
    assert!(rt; !is_block_kinded(rt.alloc(), &[Output(0, 0), Ret])?);
    Ok(())
}

// At address 3 there is an integer, or nothing.
#[test]
fn ways_to_an_address_that_differ(rt: HostRuntime) -> Result<(), Failed> {
    assert!(rt; !is_block_kinded(rt.alloc(), &[True, Jfalse(3), Push(1), Fail])?);
    Ok(())
}

#[test]
fn more_than_is_asked_at_the_end(rt: HostRuntime) -> Result<(), Failed> {
    assert!(rt; !is_block_kinded(rt.alloc(), &[Push(1), Ret])?);
    Ok(())
}

/// A guard that leaves an integer.
const NO_TRUTH: &[Row] = &[(Body(0), &[], &[]), (Guard(2), &[], &[Var(0), Load, Ret])];

#[test]
fn a_guard_without_a_truth_value(rt: HostRuntime) -> Result<(), Failed> {
    assert!(rt; !are_kinded(rt.alloc(), NO_TRUTH)?);
    Ok(())
}

/// A block whose local is not what is received.
const NOTHING_RECEIVED: &[Row] = &[(Body(0), &[], &[]), (Block(4), &[], &[Ret])];

#[test]
fn a_block_that_has_no_room_for_what_is_received(rt: HostRuntime) -> Result<(), Failed> {
    assert!(rt; !are_kinded(rt.alloc(), NOTHING_RECEIVED)?);
    Ok(())
}

/// The procedure needs the instance of its own body.
const OPEN: &[Row] = &[
    (Body(0), &[], &[]),
    (Routine(1), &[true], &[Ref(0), Var(0), Load, Store(0), Ret]),
    (Body(1), &[], &[]),
    (Block(1), &[], &[Var(2), Call(1, 1), Ret]),
];

#[test]
fn a_call_of_what_needs_another_instance(rt: HostRuntime) -> Result<(), Failed> {
    assert!(rt; !are_kinded(rt.alloc(), OPEN)?);
    Ok(())
}

/// A routine is called that has no unit.
const NO_ROUTINE: &[Row] = &[
    (Body(0), &[], &[]),
    (Block(1), &[], &[Var(0), Call(1, 1), Ret]),
];

#[test]
fn a_routine_that_is_not_there(rt: HostRuntime) -> Result<(), Failed> {
    assert!(rt; !are_kinded(rt.alloc(), NO_ROUTINE)?);
    Ok(())
}

/// A child whose initialization is not there.
const NO_CHILD: &[Row] = &[
    (Body(0), &[], &[]),
    (Initialize, &[], &[Push(1), Init(1), Ret]),
];

#[test]
fn an_initialization_that_is_not_there(rt: HostRuntime) -> Result<(), Failed> {
    assert!(rt; !are_kinded(rt.alloc(), NO_CHILD)?);
    Ok(())
}

/// Whether a code is refused that has no unit but these, without the one at an address.
fn is_missed(alloc: Global, rows: &[Row], at: usize) -> Result<bool, AllocError>
    requires { at < length rows.now }
{
    match &rows[at] {
        (Body(_), _, _) => Ok(true),
        _ => Ok(!are_all_kinded(alloc, &rows[..at], &rows[at + 1..])?),
    }
}

// Guards, blocks, a delay and the specification's own initialization.
#[test]
fn each_unit_that_is_asked_for(rt: HostRuntime) -> Result<(), Failed> {
    for at in 0..ASKED.len() {
        assert!(rt; is_missed(rt.alloc(), ASKED, at)?, "{at}");
    }
    Ok(())
}

/// A truth value, where no `provided` is written.
const NOT_SAID: &[Row] = &[
    (Body(0), &[], &[]),
    (Guard(1), &[], &[Push(1), Push(2), Lt, Ret]),
];

#[test]
fn a_guard_without_provided_that_does_not_say_true(rt: HostRuntime) -> Result<(), Failed> {
    assert!(rt; !are_kinded(rt.alloc(), NOT_SAID)?);
    Ok(())
}
