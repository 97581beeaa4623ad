//! What each step on the table tells the seat that makes it.
ghost use Rattle.turn_board.specs.Steps.{drawn, looked, counted, passed, arrived, more_made, next_pass, ended};
ghost use Rattle.turn_board.specs.declared.views.Role.TheVariants.{Spent};

use crate::recorded::Recorded;
use crate::views::Role;
use atomic_table::{Join, Play, Split};
use std::marker::PhantomData;

// One is added to `ticket`.
pub(crate) struct Draw;

impl<V, B, E> Play<Option<V>, Role<V, B, E>> for Draw {
    ghost then = { drawn };
}

// `turn` is read; who is served takes the value.
pub(crate) struct Look<V> {
    of: PhantomData<V>,
}

impl<V: Recorded> Play<Option<V>, Role<V, V::Base, V::Entry>> for Look<V> {
    ghost then = { looked V.base V.entries V.writer };
}

// The number of new entries is added to `length`.
pub(crate) struct Count<V> {
    of: PhantomData<V>,
}

impl<V: Recorded> Play<Option<V>, Role<V, V::Base, V::Entry>> for Count<V> {
    ghost then = { counted V.entries };
}

// The value is given back, and one is added to `turn`.
pub(crate) struct PassOn;

impl<V, B, E> Play<Option<V>, Role<V, B, E>> for PassOn {
    ghost then = { passed };
}

// A seat comes that will end passes.
pub(crate) struct Arrive;

impl<V, B, E> Play<Option<V>, Role<V, B, E>> for Arrive {
    ghost then = { arrived };
}

// A pass is made.
pub(crate) struct Another;

impl<V, B, E> Split<Role<V, B, E>> for Another {
    ghost left = { more_made };

    ghost right = { next_pass };
}

// A pass is ended.
pub(crate) struct End;

impl<V, B, E> Join<Role<V, B, E>> for End {
    ghost both = { ended };

    ghost spent = { Spent };
}
