//! Workers.

ghost use Rattle.std.specs.Prelude.{◌≡◌, map, vec_capacity, All, IfOk, IfErr};
ghost use Rattle.std.specs.Thread.{IsSync};
ghost use Rattle.turn_board.specs.Passes.{AreAllOf, number_of};
ghost use Rattle.board_threads.specs.Workers.{IsFree, MayWork};

use crate::labour::Labour;
use std::alloc::Global;
use std::sync::Wait;
use std::thread::{Threads, join};
use turn_board::{Board, Pass, Recorded};

// A pass beside its board and what is done with it.
#[derive(Drop)]
struct Hand<'b, 'l, V: Recorded, W> {
    board: &'b Board<V>,
    labour: &'l W,
    pass: Pass<V>,
}

// Passes beside their board and what is done with them.
#[derive(Drop)]
struct Hands<'b, 'l, V: Recorded, W> {
    board: &'b Board<V>,
    labour: &'l W,
    passes: Vec<Pass<V>>,
}

// One worker.
fn work<V: Recorded, W: Labour<V>, R: Wait>(rt: &R, hand: Hand<'_, '_, V, W>) -> Pass<V>
    requires { MayWork (W.asks hand.labour.now) hand.board.now hand.pass }
    ensures free { IsFree hand.entry.board.now result }
    ensures number { number_of result ≡ number_of hand.entry.pass }
{
    let Hand {
        board,
        labour,
        mut pass,
    } = hand;
    labour.work(rt, board, &mut pass);
    pass
}

// A worker for each pass: the last one here, the others in threads of their own, where they can be made.
fn work_each<V: Recorded + Send, W: Labour<V> + Sync, R: Threads + Wait + Sync>(
    rt: &R,
    hands: Hands<'_, '_, V, W>,
) -> Vec<Pass<V>>
    requires { All (MayWork (W.asks hands.labour.now) hands.board.now) hands.passes.items }
    ensures free { All (IsFree hands.entry.board.now) result.items }
    ensures numbers { map number_of result.items ≡ map number_of hands.entry.passes.items }
    ensures room { vec_capacity result ≡ vec_capacity hands.entry.passes }
{
    let Hands {
        board,
        labour,
        mut passes,
    } = hands;
    let Some(pass) = passes.pop() else {
        return passes;
    };
    let hand = Hand {
        board,
        labour,
        pass,
    };
    if passes.is_empty() {
        passes.push_reserved(work(rt, hand));
        return passes;
    }
    let rest = Hands {
        board,
        labour,
        passes,
    };
    let (pass, mut passes) = join(
        rt,
        || -> Pass<V>
            requires { IsSync R.row × MayWork (W.asks hand.labour.now) hand.board.now hand.pass }
            ensures { IsFree hand.entry.board.now result × (number_of result ≡ number_of hand.entry.pass) }
        { work(rt, hand) },
        || -> Vec<Pass<V>>
            requires { IsSync R.row × All (MayWork (W.asks rest.labour.now) rest.board.now) rest.passes.items }
            ensures { All (IsFree rest.entry.board.now) result.items × (map number_of result.items ≡ map number_of rest.entry.passes.items) × (vec_capacity result ≡ vec_capacity rest.entry.passes) }
        { work_each(rt, rest) },
    );
    passes.push_reserved(pass);
    passes
}

// All passes of a board go to work, and come back.
fn work_all<V: Recorded + Send, W: Labour<V> + Sync, R: Threads + Wait + Sync>(
    rt: &R,
    board: &Board<V>,
    passes: Vec<Pass<V>>,
    labour: &W,
) -> Vec<Pass<V>>
    requires all { AreAllOf board.now passes.items }
    requires may { All (MayWork (W.asks labour.now) board.now) passes.items }
    ensures { AreAllOf board.now result.items }
{
    let hands = Hands {
        board,
        labour,
        passes,
    };
    work_each(rt, hands)
}

/// So many workers at a board round the value, each in a thread of its own but for the last, which works here. Where no thread can be made,
/// a worker works here once the others are done. The refusal is want of memory, before anything is done.
pub fn work_on<V: Recorded + Send, W: Labour<V> + Sync, R: Threads + Wait + Sync>(
    rt: &R,
    alloc: Global,
    value: V,
    n: u32,
    labour: &W,
) -> Result<V, V>
    requires new { All (λ e. V.writer e ≡ 0) (V.entries value) }
    requires asked { W.asks labour.now (V.base value) }
    ensures base { IfOk result (λ left. V.base left ≡ V.base value) }
    ensures refused { IfErr result (λ back. back ≡ value) }
{
    let (board, passes) = Board::set_up(alloc, value, n)?;
    let passes = work_all(rt, &board, passes, labour);
    Ok(board.close(passes))
}
