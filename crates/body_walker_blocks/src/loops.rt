//! Loops: each turn takes a unit (ISO 7185, 6.8.3.7 to 6.8.3.9).

ghost use Rattle.std.specs.Prelude.{◌≡◌};
ghost use Rattle.body_state.specs.Follows.{Follows};
ghost use Rattle.body_walker_blocks.specs.Walked as walked;
ghost use Rattle.body_walker_blocks.specs.Turns as turns;

use crate::expressions::{bound, condition};
use crate::places::{is_variable, variable_host};
use crate::scope::Scope;
use crate::statements::{stmt, stmts};
use crate::variables::accessed;
use body_state::Walk;
use body_values::Stop;
use estelle_model::{Denoter, Environment, Place};
use estelle_tree::{Direction, Expr, Name, Stmt, Stmts};
use std::alloc::Global;

#[cycle(walk)]
pub fn while_loop(
    scope: &Scope,
    alloc: Global,
    here: &Environment,
    walk: &mut Walk,
    test: &Expr,
    body: &Stmt,
) -> Result<(), Stop>
    ensures { Follows (walked.while_loop scope.now here.now test.now body.now) walk.old result walk.new }
{
    while condition(scope, alloc, here, walk, test)? {
        walk.spend()?;
        stmt(scope, alloc, here, walk, body)?;
    }
    Ok(())
}

#[cycle(walk)]
pub fn repeat_loop(
    scope: &Scope,
    alloc: Global,
    here: &Environment,
    walk: &mut Walk,
    body: &Stmts,
    test: &Expr,
) -> Result<(), Stop>
    ensures { Follows (walked.repeat_loop scope.now here.now body.now test.now) walk.old result walk.new }
{
    loop {
        walk.spend()?;
        stmts(scope, alloc, here, walk, body)?;
        if condition(scope, alloc, here, walk, test)? {
            return Ok(());
        }
    }
}

/// A `for`, whose bounds are evaluated once.
#[cycle(walk)]
pub fn count(
    scope: &Scope,
    alloc: Global,
    here: &Environment,
    walk: &mut Walk,
    variable: &Name,
    first: &Expr,
    direction: Direction,
    last: &Expr,
    body: &Stmt,
) -> Result<(), Stop>
    ensures { Follows (walked.count scope.now here.now variable.now first.now direction last.now body.now) walk.old result walk.new }
{
    let meaning = scope.meaning(variable);
    if !is_variable(meaning) {
        return Err(Stop::Broken);
    }
    let host = variable_host(meaning);
    let first = bound(scope, alloc, here, walk, host, first)?;
    let last = bound(scope, alloc, here, walk, host, last)?;
    let to = accessed(scope, alloc, here, walk, meaning, &[])?;
    count_loop(
        scope, alloc, here, walk, to.denoter, &to.place, first, direction, last, body,
    )
}

/// The turns of a `for`: its variable is set before each, and unset at the end.
#[cycle(walk)]
fn count_loop(
    scope: &Scope,
    alloc: Global,
    here: &Environment,
    walk: &mut Walk,
    denoter: &Denoter,
    place: &Place,
    first: i64,
    direction: Direction,
    last: i64,
    body: &Stmt,
) -> Result<(), Stop>
    ensures { Follows (walked.count_loop scope.now here.now denoter.now place.now first direction last body.now) walk.old result walk.new }
{
    let mut coming = beginning(direction, first, last);
    while let Some(number) = coming {
        walk.spend()?;
        walk.store_ordinal(alloc, denoter, place, number)?;
        stmt(scope, alloc, here, walk, body)?;
        coming = following(direction, number, last);
    }
    walk.blank(alloc, place)
}

/// The value of the first turn, if there is one.
fn beginning(direction: Direction, first: i64, last: i64) -> Option<i64>
    ensures { result ≡ turns.beginning direction first last }
{
    match direction {
        Direction::To => if first <= last { Some(first) } else { None },
        Direction::Downto => if last <= first { Some(first) } else { None },
    }
}

/// The value of the turn after that with a number, if there is one.
fn following(direction: Direction, number: i64, last: i64) -> Option<i64>
    ensures { result ≡ turns.following direction number last }
{
    match direction {
        Direction::To => if number < last {
            Some(number + 1)
        } else {
            None
        },
        Direction::Downto => if last < number {
            Some(number - 1)
        } else {
            None
        },
    }
}
