//! Turns in which lines are written.
ghost use Rattle.std.specs.Prelude.{◌≡◌, ◌≤◌, List, [], ◌∷◌, map, vec_capacity};
ghost use Rattle.turn_board.specs.Passes.{own, board_of, passes_of, first_of, number_of, IsOf, IsIdle, AreAllOf, Turned};
ghost use Rattle.board_tests.specs.declared.log.Line.{Line};

use crate::log::Log;
use std::alloc::AllocError;
use std::sync::Wait;
use turn_board::{Board, Pass, Recorded};

/// What a turn tells: its ticket, and how many lines it found.
#[derive(Drop, Clone, Copy)]
pub struct Told {
    pub ticket: u64,
    pub found: usize,
}

/// One turn, in which a line is written.
pub fn write<'a, R: Wait>(
    rt: &R,
    board: &Board<Log<'a>>,
    pass: &mut Pass<Log<'a>>,
    what: u64,
) -> Result<Told, AllocError>
    requires { IsOf board.now pass.old × IsIdle pass.old }
    ensures board { board_of pass.new ≡ board_of pass.old }
    ensures turn { (found : List Line) × (added : List Line) × Turned (λ line. line.by) (own pass.old) found added (own pass.new) }
{
    let mut turn = board.turn(rt, pass);
    let told = Told {
        ticket: turn.ticket(),
        found: turn.value().lines.len(),
    };
    let written = turn.value_mut().write(pass.number(), what);
    turn.end(pass);
    written.map(|_| told)
}

/// A pass beside its board, which a closure takes as one value.
#[derive(Drop)]
pub struct Hand<'b, V: Recorded> {
    pub board: &'b Board<V>,
    pub pass: Pass<V>,
}

/// So many turns, in which 0, 1, .. are written.
pub fn write_all<'b, 'a, R: Wait>(rt: &R, hand: Hand<'b, Log<'a>>, count: u64) -> Pass<Log<'a>>
    requires { IsOf hand.board.now hand.pass × IsIdle hand.pass }
    ensures board { IsOf hand.entry.board.now result }
    ensures pass { IsIdle result × (number_of result ≡ number_of hand.entry.pass) }
{
    let Hand { board, mut pass } = hand;
    for what in 0..count {
        if write(rt, board, &mut pass, what).is_err() {
            break;
        }
    }
    pass
}

/// The two passes of a board, taken out of their list.
pub fn take_two<V: Recorded>(board: &Board<V>, passes: &mut Vec<Pass<V>>) -> (Pass<V>, Pass<V>)
    requires { AreAllOf board.now passes.old.items × (map number_of passes.old.items ≡ 1 ∷ 2 ∷ []) }
    ensures board { IsOf board.now result.0 × IsOf board.now result.1 × IsIdle result.0 × IsIdle result.1 }
    ensures numbers { (number_of result.0 ≡ 1) × (number_of result.1 ≡ 2) }
    ensures both { passes.old.items ≡ result.0 ∷ result.1 ∷ [] }
    ensures rest { (passes.new.items ≡ []) × (2 ≤ vec_capacity passes.new) }
{
    let second = passes.pop().unwrap();
    let first = passes.pop().unwrap();
    (first, second)
}

/// Closes a board with its two passes, which come back to their list.
pub fn close_two<V: Recorded>(
    board: Board<V>,
    mut passes: Vec<Pass<V>>,
    first: Pass<V>,
    second: Pass<V>,
) -> V
    requires board { IsOf board first × IsOf board second × IsIdle first × IsIdle second }
    requires all { (number_of first ≡ 1) × (number_of second ≡ 2) × (passes_of board ≡ 2) }
    requires rest { (passes.items ≡ []) × (2 ≤ vec_capacity passes) }
    ensures base { V.base result ≡ V.base (first_of board) }
{
    passes.push_reserved(first);
    passes.push_reserved(second);
    board.close(passes)
}
