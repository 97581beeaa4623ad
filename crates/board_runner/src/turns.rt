//! Turns of a pass.

ghost use Rattle.std.specs.Prelude.{◌≡◌, ◌++◌, ℕ, List, [], MatchResult};
ghost use Rattle.run_history.specs.declared.entry.Entry.{Entry};
ghost use Rattle.turn_board.specs.Passes.{own, board_of, IsOf, IsIdle};
ghost use Rattle.board_runner.specs.Turns.{IsTurn, Gives, IsToCommit, Settles, Exchanges};

use crate::going::go_on_as;
use crate::settling::{exchange_as, settle_as};
use crate::work::Work;
use estelle_model::Done;
use outside::{Chooser, Clock};
use situation::{Committed, World};
use std::alloc::{AllocError, Global};
use std::sync::Wait;
use turn_board::{Board, Pass};

/// A board that passes a world round.
pub type RunBoard<'a, C, H> = Board<World<'a, C, H>>;

/// A pass of such a board.
pub type RunPass<'a, C, H> = Pass<World<'a, C, H>>;

/// A turn in which the run goes on, or a firing is taken. The refusal is want of memory.
pub fn next<'a, C: Clock, H: Chooser + Drop, R: Wait>(
    rt: &R,
    alloc: Global,
    board: &RunBoard<'a, C, H>,
    pass: &mut RunPass<'a, C, H>,
) -> Result<Work, AllocError>
    requires { IsOf board.now pass.old × IsIdle pass.old }
    ensures board { board_of pass.new ≡ board_of pass.old }
    ensures turn { (found : List Entry) × (added : List Entry) × (waited : ℕ) × IsTurn (own pass.old) found added waited (own pass.new)
        × MatchResult result (Gives (own pass.old).base (own pass.old).number waited found added) (λ _. added ≡ []) }
{
    let mut turn = board.turn(rt, pass);
    let work = go_on_as(turn.value_mut(), alloc, pass.number());
    turn.end(pass);
    work
}

/// A turn in which what was computed is committed. Where it comes back, for want of memory, nothing changed.
pub fn commit<'a, C: Clock, H: Chooser + Drop, R: Wait>(
    rt: &R,
    alloc: Global,
    board: &RunBoard<'a, C, H>,
    pass: &mut RunPass<'a, C, H>,
    done: Done,
) -> Result<Committed, Done>
    requires pass { IsOf board.now pass.old × IsIdle pass.old }
    requires its { IsToCommit (own pass.old) done }
    ensures board { board_of pass.new ≡ board_of pass.old }
    ensures turn { (found : List Entry) × (added : List Entry) × (waited : ℕ) × IsTurn (own pass.old) found added waited (own pass.new)
        × MatchResult result (Settles (own pass.old).base (own pass.old).number found added done) (λ d. (added ≡ []) × (d ≡ done)) }
{
    let mut turn = board.turn(rt, pass);
    let committed = settle_as(turn.value_mut(), alloc, pass.number(), done);
    turn.end(pass);
    committed
}

/// A turn in which what was computed is committed, and then the run goes on, or a firing is taken. Where it comes back, for want of
/// memory, nothing changed. If the run does not go on for want of memory, it is committed all the same.
pub fn exchange<'a, C: Clock, H: Chooser + Drop, R: Wait>(
    rt: &R,
    alloc: Global,
    board: &RunBoard<'a, C, H>,
    pass: &mut RunPass<'a, C, H>,
    done: Done,
) -> Result<(Committed, Result<Work, AllocError>), Done>
    requires pass { IsOf board.now pass.old × IsIdle pass.old }
    requires its { IsToCommit (own pass.old) done }
    ensures board { board_of pass.new ≡ board_of pass.old }
    ensures turn { (found : List Entry) × (first : List Entry) × (second : List Entry) × (waited : ℕ) × IsTurn (own pass.old) found (first ++ second) waited (own pass.new)
        × Exchanges (own pass.old).base (own pass.old).number waited found first second done result }
{
    let mut turn = board.turn(rt, pass);
    let exchanged = exchange_as(turn.value_mut(), alloc, pass.number(), done);
    turn.end(pass);
    exchanged
}
