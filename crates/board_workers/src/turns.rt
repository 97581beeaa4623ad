//! Turns of a worker.

ghost use Rattle.std.specs.Prelude.{◌≡◌, IfSome};
ghost use Rattle.turn_board.specs.Passes.{own};
ghost use Rattle.board_threads.specs.Workers.{IsFree};
ghost use Rattle.board_runner.specs.Turns.{IsToCommit};
ghost use Rattle.board_workers.specs.Jobs.{IsSamePass, HasWork};

use board_runner::{RunBoard, RunPass, Work, commit, exchange, next};
use estelle_model::Done;
use outside::{Chooser, Clock};
use situation::Committed;
use std::alloc::Global;
use std::sync::Wait;

/// Asks for something to do. There is no answer for want of memory.
pub(crate) fn ask<'a, C: Clock, H: Chooser + Drop, R: Wait>(
    rt: &R,
    alloc: Global,
    board: &RunBoard<'a, C, H>,
    pass: &mut RunPass<'a, C, H>,
) -> Option<Work>
    requires { IsFree board.now pass.old }
    ensures same { IsSamePass pass.old pass.new }
    ensures has { IfSome result (HasWork (own pass.new)) }
{
    next(rt, alloc, board, pass).ok()
}

/// Commits what was computed, and asks for something to do. There is no answer for want of memory.
pub(crate) fn hand_in<'a, C: Clock, H: Chooser + Drop, R: Wait>(
    rt: &R,
    alloc: Global,
    board: &RunBoard<'a, C, H>,
    pass: &mut RunPass<'a, C, H>,
    done: Done,
) -> Option<Work>
    requires free { IsFree board.now pass.old }
    requires its { IsToCommit (own pass.old) done }
    ensures same { IsSamePass pass.old pass.new }
    ensures has { IfSome result (HasWork (own pass.new)) }
{
    match exchange(rt, alloc, board, pass, done) {
        Ok((_, work)) => work.ok(),
        Err(_) => None,
    }
}

/// Commits what was computed. There is no answer for want of memory.
pub(crate) fn give<'a, C: Clock, H: Chooser + Drop, R: Wait>(
    rt: &R,
    alloc: Global,
    board: &RunBoard<'a, C, H>,
    pass: &mut RunPass<'a, C, H>,
    done: Done,
) -> Option<Committed>
    requires free { IsFree board.now pass.old }
    requires its { IsToCommit (own pass.old) done }
    ensures { IsSamePass pass.old pass.new }
{
    commit(rt, alloc, board, pass, done).ok()
}
