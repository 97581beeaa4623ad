//! How passes are seated at the table of a board, and leave it.
ghost use Rattle.std.specs.Prelude.{◌≡◌, ◌≤◌, [], ◌∷◌, length, map, All, Some, vec_capacity};
ghost use Rattle.turn_board.specs.Passes.{own};
ghost use Rattle.turn_board.specs.Seats.{IsSized, IsIdleAt, AreNew};
ghost use Rattle.turn_board.specs.Rule.{opener};
ghost use Rattle.turn_board.specs.declared.views.Role.TheVariants.{Closer};

use crate::pass::Pass;
use crate::plays::{Another, End};
use crate::recorded::Recorded;
use crate::steps::{Place, Top};

// Makes the passes with the numbers 1 to n.
pub(crate) fn make_passes<V: Recorded>(
    top: &Top<V>,
    mut opener_seat: Place<V>,
    n: u32,
    passes: &mut Vec<Pass<V>>,
)
    requires table { (opener_seat.table_id ≡ top.now.table_id) × IsSized top.now.table_id × (top.now.key.passes ≡ n) }
    requires view { opener_seat.me ≡ (opener (V.base top.now.key.value.value), []) }
    requires room { (passes.old.items ≡ []) × (n ≤ vec_capacity passes.old) }
    ensures count { length passes.new.items ≡ n }
    ensures new { AreNew top.now.table_id (V.base top.now.key.value.value) n passes.new.items }
{
    for i in 0..n {
        let seat = top.split_seat::<Another>(&mut opener_seat);
        passes.push_reserved(Pass {
            seat,
            number: i + 1,
        });
    }
}

// Ends these passes.
pub(crate) fn end_passes<V: Recorded>(top: &Top<V>, closer: &mut Place<V>, mut passes: Vec<Pass<V>>)
    requires table { (closer.old.table_id ≡ top.now.table_id) × IsSized top.now.table_id }
    requires view { closer.old.me ≡ (Closer [], []) }
    requires passes { All (IsIdleAt top.now.table_id) passes.items }
    ensures table { closer.new.table_id ≡ top.now.table_id }
    ensures view { closer.new.me ≡ (Closer (map own passes.items), []) }
{
    while let Some(pass) = passes.pop() {
        let seat = pass.into_seat();
        top.join_seat::<End>(closer, seat);
    }
    passes.destroy_empty();
}

// The value of the one slot.
pub(crate) fn take_back<V>(mut slots: Vec<Option<V>>) -> V
    requires { (v : V) × (slots.items ≡ Some v ∷ []) }
    ensures { slots.items ≡ Some result ∷ [] }
{
    let value = slots.pop().unwrap().unwrap();
    slots.destroy_empty();
    value
}
