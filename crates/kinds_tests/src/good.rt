//! Codes of good kinds.

use crate::codes::Of::{Block, Body, Delay, Guard, Initialize, Routine};
use crate::codes::Op::*;
use crate::codes::Row;
use crate::subject::{are_kinded, is_block_kinded};
use std::test::Fail as Failed;

#[test]
fn units_that_are_asked_for_are(rt: HostRuntime) -> Result<(), Failed> {
    assert!(rt; are_kinded(rt.alloc(), &[])?);
    Ok(())
}

#[test]
fn an_assignment_is(rt: HostRuntime) -> Result<(), Failed> {
    assert!(rt; is_block_kinded(rt.alloc(), &[Var(0), Push(1), Fit(0), Store(0), Ret])?);
    Ok(())
}

// The statement of the loop is come to by the jump back alone.
#[test]
fn a_loop_is(rt: HostRuntime) -> Result<(), Failed> {
    let ops = &[
        Jump(4),
        Var(0),
        Push(1),
        Store(0),
        Var(0),
        Load,
        Push(3),
        Lt,
        Jfalse(11),
        Turn,
        Jump(1),
        Ret,
    ];
    assert!(rt; is_block_kinded(rt.alloc(), ops)?);
    Ok(())
}

#[test]
fn both_ways_to_an_address_may_agree(rt: HostRuntime) -> Result<(), Failed> {
    let ops = &[
        Var(0),
        True,
        Jfalse(5),
        Push(1),
        Jump(6),
        Push(2),
        Store(0),
        Ret,
    ];
    assert!(rt; is_block_kinded(rt.alloc(), ops)?);
    Ok(())
}

/// A guard, and a delay with two values.
const CLAUSES: &[Row] = &[
    (Body(0), &[], &[]),
    (Guard(2), &[], &[Var(0), Load, Push(2), Lt, Ret]),
    (Guard(3), &[], &[True, Ret]),
    (Delay(3), &[], &[Var(0), Load, Push(5), Ret]),
];

#[test]
fn clauses_are(rt: HostRuntime) -> Result<(), Failed> {
    assert!(rt; are_kinded(rt.alloc(), CLAUSES)?);
    Ok(())
}

/// What is received is the block's local.
const RECEIVES: &[Row] = &[
    (Body(0), &[], &[]),
    (Block(4), &[false], &[Var(0), Loc(0), Load, Store(0), Ret]),
];

#[test]
fn a_block_that_receives_is(rt: HostRuntime) -> Result<(), Failed> {
    assert!(rt; are_kinded(rt.alloc(), RECEIVES)?);
    Ok(())
}

/// A function, which bodies may call for it needs no instance of its own.
const FUNCTION: &[Row] = &[
    (Body(0), &[], &[]),
    (
        Routine(0),
        &[false, false],
        &[Loc(1), Loc(0), Load, Store(0), Loc(1), Load, Ret],
    ),
    (Block(1), &[], &[Var(0), Push(1), Call(0, 1), Store(0), Ret]),
    (Body(1), &[], &[]),
    (Block(1), &[], &[Var(2), Push(1), Call(0, 1), Store(0), Ret]),
];

#[test]
fn calls_of_a_function_are(rt: HostRuntime) -> Result<(), Failed> {
    assert!(rt; are_kinded(rt.alloc(), FUNCTION)?);
    Ok(())
}

/// A procedure that is given a place.
const PROCEDURE: &[Row] = &[
    (Body(0), &[], &[]),
    (Routine(1), &[true], &[Ref(0), Var(0), Load, Store(0), Ret]),
    (Block(1), &[], &[Var(0), Call(1, 1), Ret]),
];

#[test]
fn a_call_with_a_place_is(rt: HostRuntime) -> Result<(), Failed> {
    assert!(rt; are_kinded(rt.alloc(), PROCEDURE)?);
    Ok(())
}

#[test]
fn an_output_is(rt: HostRuntime) -> Result<(), Failed> {
    assert!(rt; is_block_kinded(rt.alloc(), &[Push(1), Output(0, 1), Ret])?);
    Ok(())
}

#[test]
fn an_export_is(rt: HostRuntime) -> Result<(), Failed> {
    assert!(rt; is_block_kinded(rt.alloc(), &[Exp(0), True, Store(1), Ret])?);
    Ok(())
}

/// A child whose initialization is there.
const CHILD: &[Row] = &[
    (Body(0), &[], &[]),
    (Initialize, &[], &[Push(1), Init(1), Ret]),
    (Body(1), &[], &[]),
    (Initialize, &[], &[Ret]),
];

#[test]
fn an_init_is(rt: HostRuntime) -> Result<(), Failed> {
    assert!(rt; are_kinded(rt.alloc(), CHILD)?);
    Ok(())
}

#[test]
fn a_fault_ends_a_unit(rt: HostRuntime) -> Result<(), Failed> {
    assert!(rt; is_block_kinded(rt.alloc(), &[Push(1), Fail])?);
    Ok(())
}
