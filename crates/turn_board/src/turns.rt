//! Turns.
ghost use Rattle.std.specs.Prelude.{◌≡◌, [], length, drop, All};
ghost use Rattle.turn_board.specs.Passes.{own, board_of, IsOf, IsIdle, IsTurnOf, value_of, ticket_of, with_value, found_of, StartsWith, Agrees, FindsLeft, in_turn, after_turn};
ghost use mir.Syntax.{named};
ghost use Rattle.std.specs.Borrow.{Lends, sem};
ghost use Rattle.turn_board.specs.contracts.turns.Turn.{the_row};

use crate::board::Board;
use crate::pass::Pass;
use crate::recorded::Recorded;
use crate::steps::{draw, give, take};
use std::marker::PhantomData;
use std::sync::Wait;

/// A turn of a pass, with the board's value. It must be spent by `end`.
pub struct Turn<'a, V: Recorded> {
    pub(crate) board: &'a Board<V>,
    pub(crate) value: V,
    pub(crate) ticket: u64,
    /// How many entries the turn found.
    pub(crate) began: u64,
    // With a `&mut` in it the check proves what `value_mut` lends.
    pub(crate) lends: PhantomData<&'a mut u8>,
}

impl<V: Recorded> Board<V> {
    /// Waits for the next turn of a pass that has none. It waits for good once the last ticket, 2^64 - 1, is reached.
    pub fn turn<'a, R: Wait>(&'a self, rt: &R, pass: &mut Pass<V>) -> Turn<'a, V>
        requires pass { IsOf self.now pass.old × IsIdle pass.old }
        ensures turn { IsTurnOf result pass.new }
        ensures board { board_of pass.new ≡ board_of pass.old }
        ensures own { own pass.new ≡ in_turn (own pass.old) (ticket_of result) (V.entries (value_of result)) }
        ensures found { Agrees V.writer (own pass.old) (V.base (value_of result)) (V.entries (value_of result)) }
        // Where no turn came between, it is the value that the pass left.
        ensures unchanged { FindsLeft (own pass.old) (ticket_of result) (value_of result) }
    {
        let top = &self.table.shared;
        let ticket = draw(rt, top, &mut pass.seat);
        let value = take(rt, top, &mut pass.seat, ticket);
        let began = value.count();
        Turn {
            board: self,
            value,
            ticket,
            began,
            lends: PhantomData,
        }
    }
}

impl<V: Recorded> Turn<'_, V> {
    /// The turn's ticket: turns have the tickets 0, 1, .. in order.
    pub fn ticket(&self) -> u64
        ensures { result ≡ ticket_of self.now }
    {
        self.ticket
    }

    pub fn value(&self) -> &V
        ensures { result.now ≡ value_of self.now }
    {
        &self.value
    }

    pub fn value_mut(&mut self) -> &mut V
        ensures* writes_back { sem 𝓛 (Lends (the_row (record { mir = named 1; lft = [] }) V.row V.Base.row V.Entry.row V.Recorded.own) V.row self.entry result (with_value self.old)) }
        ensures value { result.now ≡ value_of self.old }
    {
        &mut self.value
    }

    /// Ends the turn of the pass that it was taken with. The pass has seen the whole list then, and has no turn.
    pub fn end(self, pass: &mut Pass<V>)
        requires pass { IsTurnOf self pass.old }
        requires base { V.base (value_of self) ≡ (own pass.old).base }
        requires kept { StartsWith (V.entries (value_of self)) (found_of pass.old) }
        requires added { All (λ e. V.writer e ≡ (own pass.old).number) (drop (length (found_of pass.old)) (V.entries (value_of self))) }
        ensures board { board_of pass.new ≡ board_of pass.old }
        ensures own { own pass.new ≡ after_turn (own pass.old) (ticket_of self.entry) (found_of pass.old) (value_of self.entry) (V.entries (value_of self.entry)) }
    {
        let Turn {
            board,
            value,
            ticket: _,
            began,
            lends: _,
        } = self;
        let more = value.count() - began;
        give(&board.table.shared, &mut pass.seat, value, more);
    }
}
