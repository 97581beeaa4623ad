//! The board.
ghost use Rattle.std.specs.Prelude.{◌≡◌};

use crate::pass::Pass;
use crate::plays::Arrive;
use crate::recorded::Recorded;
use crate::seats::{end_passes, make_passes, take_back};
use crate::steps::TICKET;
use crate::views::{Law, Role, Start};
use atomic_table::{Refused, Table};
use std::alloc::Global;
use std::snapshot::Snapshot;

/// What threads share: a value that one pass has at a time. It ends by `close`.
pub struct Board<V: Recorded> {
    pub(crate) table: Table<Option<V>, Role<V, V::Base, V::Entry>, Start<V>, Law<V>, Global>,
    ghost sized: { (table.shared.table_id.words ≡ 3) × (table.shared.table_id.slots ≡ 1) },
}

impl<V: Recorded> Board<V> {
    ghost use Rattle.std.specs.Prelude.{◌≡◌, length, All, IfOk, IfErr};
    ghost use Rattle.turn_board.specs.Passes.{own, AreAllOf, AreNewOf, passes_of, first_of, Agrees};

    /// A board round a value that no pass has written yet, with its passes, numbered from 1 on. It refuses for want of
    /// memory alone, and hands the value back.
    pub fn set_up(alloc: Global, value: V, n: u32) -> Result<(Board<V>, Vec<Pass<V>>), V>
        requires { All (λ e. V.writer e ≡ 0) (V.entries value) }
        ensures board { IfOk result (λ r. (passes_of r.0 ≡ n) × (first_of r.0 ≡ value)) }
        ensures passes { IfOk result (λ r. (length r.1.items ≡ n) × AreNewOf r.0 (V.base value) n r.1.items) }
        ensures all { IfOk result (λ r. AreAllOf r.0 r.1.items) }
        ensures refused { IfErr result (λ v. v ≡ value) }
    {
        let Ok(mut passes) = Vec::with_capacity(alloc, n as usize) else {
            return Err(value);
        };
        let Ok(mut slots) = Vec::with_capacity(alloc, 1) else {
            return Err(value);
        };
        let start = Start {
            passes: u64::from(n),
            value: Snapshot::of(&value),
        };
        let words = [0, 0, value.count()];
        slots.push_reserved(Some(value));
        match Table::new(alloc, &words, slots, &start) {
            Ok((table, seat)) => {
                make_passes(&table.shared, seat, n, &mut passes);
                Ok((Board { table }, passes))
            }
            Err(Refused { slots }) => Err(take_back(slots)),
        }
    }

    /// Ends a board with all its passes, and gives the value. Of each pass's number it has just the entries that the
    /// pass's turns added.
    pub fn close(self, passes: Vec<Pass<V>>) -> V
        requires { AreAllOf self passes.items }
        ensures base { V.base result ≡ V.base (first_of self) }
        ensures entries { All (λ p. Agrees V.writer (own p) (V.base result) (V.entries result)) passes.items }
    {
        let Board { table } = self;
        let (_, mut closer) = table.shared.load_new_seat::<Arrive>(TICKET);
        end_passes(&table.shared, &mut closer, passes);
        let mut closed = table.close_with(closer);
        let value = closed.take(0).unwrap();
        closed.free();
        value
    }
}
