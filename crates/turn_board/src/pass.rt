//! What one thread has of a board.
ghost use Rattle.std.specs.Prelude.{◌≡◌, true};
ghost use Rattle.turn_board.specs.Rule.{is_member, is_ready};

use crate::recorded::Recorded;
use crate::views::Role;
use atomic_table::Seat;

/// The right to take turns at a board. With no bound here, a struct that names a lifetime can hold one.
pub struct PassOf<V, B, E> {
    pub(crate) seat: Seat<Option<V>, Role<V, B, E>>,
    pub(crate) number: u32,
    pub ghost member: { is_member seat.me.0 ≡ true },
    pub ghost ready: { is_ready number seat.me ≡ true },
}

/// A pass of a board over `V`.
pub type Pass<V> = PassOf<V, <V as Recorded>::Base, <V as Recorded>::Entry>;

impl<V, B, E> PassOf<V, B, E> {
    ghost use Rattle.turn_board.specs.Passes.{own};

    /// The number that its entries bear.
    pub fn number(&self) -> u32
        ensures { result ≡ (own self.now).number }
    {
        self.number
    }

    pub(crate) fn into_seat(self) -> Seat<Option<V>, Role<V, B, E>>
        ensures { result ≡ self.seat }
    {
        let Self { seat, number: _ } = self;
        seat
    }
}

impl<V, B, E> Drop for PassOf<V, B, E> {
    fn drop(self) {
        let Self { seat: _, number: _ } = self;
    }
}
