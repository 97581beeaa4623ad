//! Timers by instance and transition.

ghost use Rattle.std.specs.Prelude.{◌≡◌, IfOk, OnOk, OnErr, if◌then◌else◌};
ghost use Rattle.std.specs.Option.{option_copied};
ghost use Rattle.std.specs.BTreeMap.{IsOrdered};
ghost use Rattle.std.specs.Ordering.{eq_by_cmp};
ghost use Rattle.estelle_tree.specs.declared.transition.Pair.{Pair};
ghost use Rattle.estelle_tree.specs.Timers.{pair, pair_cmp, due, high_is_over};
ghost use Rattle.delay_timers.specs.Kept.{key_cmp, running_at, as_timer};

use std::alloc::{AllocError, Global};
use std::collections::BTreeMap;

/// A timer. It has the path of its instance, with which its moment is found again without memory.
#[derive(Drop)]
pub struct Running {
    pub start: u64,
    pub low: u32,
    pub high: Option<u32>,
    pub path: Vec<u64>,
}

/// The first moment at which a transition may fire, and the transition. Moments are in front, so that the
/// least one comes first.
#[derive(PartialEq, Eq, PartialOrd, Ord, Drop)]
pub struct Due {
    pub moment: u64,
    pub path: Vec<u64>,
    pub trans: u32,
}

/// The timers of an instance, by the transition's number.
pub type Row = BTreeMap<u32, Running>;

/// The timers of each instance that has some, by its path.
pub type Rows = BTreeMap<Vec<u64>, Row>;

impl Running {
    pub fn due(&self) -> u64
        ensures { result ≡ due (as_timer self.now) }
    {
        self.start.saturating_add(u64::from(self.low))
    }

    /// Whether its delay is over.
    pub fn ends_by(&self, now: u64) -> bool
        ensures { result ≡ high_is_over now (Some (as_timer self.now)) }
    {
        match self.high {
            None => false,
            Some(high) => self.start.saturating_add(u64::from(high)) <= now,
        }
    }
}

/// A look-up, which copies no key.
pub fn find<'a>(rows: &'a Rows, path: &[u64], trans: u32) -> Option<&'a Running>
    ensures { option_copied result ≡ running_at rows.now (pair path.now trans) }
{
    rows.get(path)?.get(&trans)
}

/// Puts a timer in. An error is want of memory.
pub fn put(
    rows: &mut Rows,
    alloc: Global,
    path: &[u64],
    trans: u32,
    running: Running,
) -> Result<(), AllocError>
    ensures ok { OnOk result ((q : Pair) → running_at rows.new q ≡ (if eq_by_cmp pair_cmp q (pair path.now trans) then Some running else running_at rows.old q)) }
    ensures err { OnErr result ((q : Pair) → running_at rows.new q ≡ running_at rows.old q) }
    ensures ordered { IsOrdered key_cmp rows.new }
{
    if let Some(row) = rows.get_mut(path) {
        row.insert(trans, running)?;
        return Ok(());
    }
    let mut row = BTreeMap::new(alloc);
    row.insert(trans, running)?;
    rows.insert(Vec::from_slice(alloc, path)?, row)?;
    Ok(())
}

/// Takes a timer out, and the row where it was the last one. It takes no memory.
pub fn take(rows: &mut Rows, path: &[u64], trans: u32) -> Option<Running>
    ensures value { result ≡ running_at rows.old (pair path.now trans) }
    ensures after { (q : Pair) → running_at rows.new q ≡ (if eq_by_cmp pair_cmp q (pair path.now trans) then None else running_at rows.old q) }
    ensures ordered { IsOrdered key_cmp rows.new }
{
    let row = rows.get_mut(path)?;
    let running = row.remove(&trans)?;
    if row.is_empty() {
        rows.remove(path);
    }
    Some(running)
}
