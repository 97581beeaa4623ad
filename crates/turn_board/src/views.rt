//! What the seats at the table know. No value of these types is made, but for `Start`.
use crate::recorded::Recorded;
use atomic_table::TableRule;
use std::collections::LinkedList;
use std::marker::PhantomData;
use std::snapshot::Snapshot;

/// Where a pass stands.
pub enum Stage<E> {
    /// It has no turn.
    Idle,
    /// It waits with this ticket.
    Drawn(u64),
    /// It has the turn of this ticket, which found these entries, or goes on from them.
    Holds(u64, LinkedList<E>),
}

/// What a pass shows.
pub struct Own<V, B, E> {
    /// The fixed part of the board's value.
    pub base: B,
    pub number: u64,
    /// The entries at the end of its last turn.
    pub seen: LinkedList<E>,
    /// The places of the entries that its own turns appended.
    pub mine: LinkedList<u64>,
    /// The ticket of its last turn, and the value that it left.
    pub left: Option<(u64, V)>,
    pub stage: Stage<E>,
}

/// What a seat at the table is for.
pub enum Role<V, B, E> {
    /// It makes the passes, and has made so many.
    Opener(B, u64),
    Member(Own<V, B, E>),
    /// It ends the passes, and has ended these.
    Closer(LinkedList<Own<V, B, E>>),
    /// It was ended.
    Spent,
}

/// What the table is told when it is made: how many passes there will be, and the first value.
#[derive(Drop)]
pub struct Start<V> {
    pub passes: u64,
    pub value: Snapshot<V>,
}

pub struct Law<V> {
    of: PhantomData<V>,
}

impl<V: Recorded> TableRule<Option<V>, Role<V, V::Base, V::Entry>, Start<V>> for Law<V> {
    ghost use Rattle.turn_board.specs.Rule.{Kept, opener};

    ghost holds = { λ key. Kept V.base V.entries V.writer key.passes (V.base key.value.value) };

    ghost first = { λ key. opener (V.base key.value.value) };
}
