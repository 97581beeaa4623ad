//! A turn as steps on the table: a ticket is drawn, the value is taken where it is served, and given back.
ghost use Rattle.std.specs.Prelude.{◌≡◌, ℕ, ◌+◌, ◌^◌, ◌<◌, List, [], ◌∷◌, length, drop, All, None};
ghost use Rattle.turn_board.specs.Seats.{IsSized, IsSameSeat};
ghost use Rattle.turn_board.specs.Accounts.{StartsWith, Agrees, FindsLeft, with_stage, after_turn};
ghost use Rattle.turn_board.specs.declared.views.Own.{Own};
ghost use Rattle.turn_board.specs.declared.views.Role.TheVariants.{Member};
ghost use Rattle.turn_board.specs.declared.views.Stage.TheVariants.{Idle, Drawn, Holds};

use crate::plays::{Count, Draw, Look, PassOn};
use crate::recorded::Recorded;
use crate::views::{Law, Role, Start};
use atomic_table::{Seat, Shared};
use std::sync::Wait;
use std::{hint, thread};

pub(crate) type Top<V> = Shared<
    Option<V>,
    Role<V, <V as Recorded>::Base, <V as Recorded>::Entry>,
    Start<V>,
    Law<V>,
>;

pub(crate) type Place<V> = Seat<Option<V>, Role<V, <V as Recorded>::Base, <V as Recorded>::Entry>>;

pub(crate) const TICKET: usize = 0;

const TURN: usize = 1;

const LENGTH: usize = 2;

// How often a pass looks whether it is served before it sleeps.
const LOOKS: u32 = 200;

// Draws a ticket. The last one is never drawn: there it waits for good.
pub(crate) fn draw<V: Recorded, R: Wait>(rt: &R, top: &Top<V>, place: &mut Place<V>) -> u64
    requires table { (place.old.table_id ≡ top.now.table_id) × IsSized top.now.table_id }
    requires idle { (o : Own V V.Base V.Entry) × (place.old.me ≡ (Member o, [])) × (o.stage ≡ Idle) }
    ensures seat { IsSameSeat place.old place.new }
    ensures drawn { (o : Own V V.Base V.Entry) → place.old.me ≡ (Member o, []) → place.new.me ≡ (Member (with_stage o (Drawn result)), []) }
{
    for _ in rt.forever() {
        let ticket = top.peek(TICKET);
        if ticket < u64::MAX {
            let found = top.compare_exchange::<Draw>(place, TICKET, ticket, ticket + 1);
            if found == ticket {
                return ticket;
            }
        }
        thread::yield_now();
    }
    unreachable!()
}

// Waits until the ticket is served, and takes the value. The sleep ends by any change of the word's lower half, and
// fewer passes than that can hold are in front, so no turn goes by unseen.
pub(crate) fn take<V: Recorded, R: Wait>(
    rt: &R,
    top: &Top<V>,
    place: &mut Place<V>,
    ticket: u64,
) -> V
    requires table { (place.old.table_id ≡ top.now.table_id) × IsSized top.now.table_id }
    requires drawn { (o : Own V V.Base V.Entry) × (place.old.me ≡ (Member o, [])) × (o.stage ≡ Drawn ticket) }
    ensures seat { IsSameSeat place.old place.new }
    ensures holds { (o : Own V V.Base V.Entry) → place.old.me ≡ (Member o, []) → place.new.me ≡ (Member (with_stage o (Holds ticket (V.entries result))), (0, None) ∷ []) }
    ensures found { (o : Own V V.Base V.Entry) → place.old.me ≡ (Member o, []) → Agrees V.writer o (V.base result) (V.entries result) × FindsLeft o ticket result }
{
    let mut looks = 0;
    for _ in rt.forever() {
        let served = top.load::<Look<V>>(place, TURN);
        if served == ticket {
            return top.exchange(place, 0, None).unwrap();
        }
        if looks < LOOKS {
            looks += 1;
            hint::spin_loop();
        } else {
            top.park(rt, TURN, (served % (1 << 32)) as u32);
        }
    }
    unreachable!()
}

// Gives the value back, tells how many entries there are more, and serves the next ticket. It wakes the others only
// where one of them has drawn that ticket: whoever draws it later finds it served.
pub(crate) fn give<V: Recorded>(top: &Top<V>, place: &mut Place<V>, value: V, more: u64)
    requires table { (place.old.table_id ≡ top.now.table_id) × IsSized top.now.table_id }
    requires ready { (o : Own V V.Base V.Entry) × (ticket : ℕ) × (found : List V.Entry) × (place.old.me ≡ (Member o, (0, None) ∷ [])) × (o.stage ≡ Holds ticket found) × (V.base value ≡ o.base) × StartsWith (V.entries value) found × (length found + more ≡ length (V.entries value)) × All (λ e. V.writer e ≡ o.number) (drop (length found) (V.entries value)) }
    requires room { length (V.entries value) < 2 ^ 64 }
    ensures seat { IsSameSeat place.old place.new }
    ensures given { (o : Own V V.Base V.Entry) (ticket : ℕ) (found : List V.Entry) → place.old.me ≡ (Member o, (0, None) ∷ []) → o.stage ≡ Holds ticket found → place.new.me ≡ (Member (after_turn o ticket found value (V.entries value)), []) }
{
    match top.exchange(place, 0, Some(value)) {
        None => {}
        Some(_) => unreachable!(),
    }
    top.fetch_add::<Count<V>>(place, LENGTH, more);
    let served = top.fetch_add::<PassOn>(place, TURN, 1);
    if top.peek(TICKET).saturating_sub(served) > 1 {
        top.wake_all(TURN);
    }
}
