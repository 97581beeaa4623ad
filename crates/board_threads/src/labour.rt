//! What is done with a pass.

ghost use Rattle.std.specs.Prelude.{◌≡◌};
ghost use Rattle.turn_board.specs.Passes.{own, number_of};
ghost use Rattle.board_threads.specs.Workers.{IsFree, MayWork};

use std::sync::Wait;
use turn_board::{Board, Pass, Recorded};

/// What a worker does at a board with its pass.
pub trait Labour<V: Recorded> {
    // What it asks of the fixed part of a board's value.
    ghost asks: { Self → V.Base → Type 0 };

    /// Takes turns, and comes back with none.
    fn work<R: Wait>(&self, rt: &R, board: &Board<V>, pass: &mut Pass<V>)
        requires { MayWork (asks self.now) board.now pass.old }
        ensures free { IsFree board.now pass.new }
        ensures number { number_of pass.new ≡ number_of pass.old };
}
