//! The timers of all instances.

ghost use Rattle.std.specs.Prelude.{◌≡◌, ◌&&◌, ◌++◌, not, map as each, IfOk, OnOk, OnErr, None};
ghost use Rattle.std.specs.BTreeMap as tree;
ghost use Rattle.std.specs.Option.{option_map};
ghost use Rattle.std.specs.FinMap as map;
ghost use Rattle.estelle_tree.specs.declared.transition.Pair.{Pair as Place};
ghost use Rattle.estelle_tree.specs.Paths.{is_inside};
ghost use Rattle.estelle_tree.specs.Timers.{pair, low_is_over, high_is_over, next_due, renewed};
ghost use Rattle.delay_timers.specs.Moments.{pair_of, AreDifferent};
ghost use Rattle.delay_timers.specs.Kept.{as_timer};
ghost use Rattle.delay_timers.specs.Renewal.{is_among, started, all_started, CanStart, all_dropped, lacking, unwanted_of};

use crate::kept::{Due, Row, Rows, Running, find, put, take};
use estelle_tree::{Pair, Path, Wanted};
use std::alloc::{AllocError, Global};
use std::collections::{BTreeMap, BTreeSet};
use std::marker::Model;

/// The timers of all instances, seen as a finite map from (path, transition) to when the timer started and
/// the bounds of its delay. Moments are counts of the clock; a sum above 2^64 - 1 counts as that moment.
pub struct Timers {
    rows: Rows,
    dues: BTreeSet<Due>,
}

impl Drop for Timers {
    fn drop(self) {
        let Timers { rows: _, dues: _ } = self;
    }
}

impl Model for Timers {
    ghost use Rattle.estelle_tree.specs.Timers.{Timers as Seen};

    ghost Value = { Seen };

    ghost use Rattle.delay_timers.specs.Kept.{seen, timers_code, IsKept};

    ghost coded = { timers_code };

    ghost view = { λ t. seen t.rows };

    ghost invariant = { λ t. IsKept t.rows t.dues };
}

impl Timers {
    /// No timers. It takes no memory.
    pub fn none(alloc: Global) -> Timers
        ensures { result ≡ map.empty }
    {
        Timers {
            rows: BTreeMap::new(alloc),
            dues: BTreeSet::new(alloc),
        }
    }

    /// A look-up, which copies no key.
    fn find(&self, path: &[u64], trans: u32) -> Option<&Running>
        ensures { option_map (λ r. as_timer r.now) result ≡ map.get self.now (pair path.now trans) }
    {
        find(&self.rows, path, trans)
    }

    /// Whether the transition has a timer.
    pub fn has(&self, path: &Path, trans: u32) -> bool
        ensures { result ≡ map.contains_key self.now (pair path.now trans) }
    {
        self.find(path.items(), trans).is_some()
    }

    /// Whether the transition may fire now, as far as its delay goes: the lower bound is over. False where
    /// it has no timer.
    pub fn may(&self, path: &Path, trans: u32, now: u64) -> bool
        ensures { result ≡ low_is_over now (map.get self.now (pair path.now trans)) }
    {
        match self.find(path.items(), trans) {
            None => false,
            Some(running) => running.due() <= now,
        }
    }

    /// Whether the transition must be counted now: the upper bound of its delay is over. False where it has
    /// no timer, or a delay without an upper bound.
    pub fn must(&self, path: &Path, trans: u32, now: u64) -> bool
        ensures { result ≡ high_is_over now (map.get self.now (pair path.now trans)) }
    {
        match self.find(path.items(), trans) {
            None => false,
            Some(running) => running.ends_by(now),
        }
    }

    /// Starts the timer of a transition that has none.
    fn start(&mut self, alloc: Global, now: u64, wanted: &Wanted) -> Result<(), AllocError>
        requires { map.get self.old (pair_of wanted.now) ≡ None }
        ensures ok { OnOk result (self.new ≡ map.insert self.old (pair_of wanted.now) (started now wanted.now)) }
        ensures err { OnErr result (self.new ≡ self.old) }
    {
        let path = wanted.path.items();
        let running = Running {
            start: now,
            low: wanted.low,
            high: wanted.high,
            path: Vec::from_slice(alloc, path)?,
        };
        let due = Due {
            moment: running.due(),
            path: Vec::from_slice(alloc, path)?,
            trans: wanted.trans,
        };
        put(&mut self.rows, alloc, path, wanted.trans, running)?;
        if let Ok(_) = self.dues.insert(due) {
            return Ok(());
        }
        let _ = take(&mut self.rows, path, wanted.trans);
        Err(AllocError)
    }

    /// Drops the timer of a transition, if it has one, as its firing does. It takes no memory.
    pub fn drop_one(&mut self, path: &Path, trans: u32)
        ensures { self.new ≡ map.remove self.old (pair path.now trans) }
    {
        let Some(running) = take(&mut self.rows, path.items(), trans) else {
            return;
        };
        let moment = running.due();
        let Running { path, .. } = running;
        self.dues.remove(&Due {
            moment,
            path,
            trans,
        });
    }

    /// The least moment from which on a transition that has a timer may fire; none where there is no timer.
    pub fn next_due(&self) -> Option<u64>
        ensures { result ≡ next_due self.now }
    {
        match self.dues.first() {
            None => None,
            Some(due) => Some(due.moment),
        }
    }

    /// Timers that start now, of these transitions alone.
    fn of(alloc: Global, now: u64, wanted: &[Wanted]) -> Result<Timers, AllocError>
        requires { CanStart now wanted.now map.empty }
        ensures { IfOk result (λ timers. timers ≡ all_started now wanted.now map.empty) }
    {
        let mut timers = Timers::none(alloc);
        for one in wanted {
            timers.start(alloc, now, one)?;
        }
        Ok(timers)
    }

    /// Those of the transitions that have no timer.
    fn lacking<'a>(
        &self,
        alloc: Global,
        wanted: &'a [Wanted],
    ) -> Result<Vec<&'a Wanted>, AllocError>
        ensures { IfOk result (λ those. each (λ w. w.now) those.items ≡ lacking self.now wanted.now) }
    {
        let mut those = Vec::new(alloc);
        for one in wanted {
            if !self.has(&one.path, one.trans) {
                those.push(one)?;
            }
        }
        Ok(those)
    }

    /// Adds the pairs of a row that have no timer here.
    fn missing(
        &self,
        alloc: Global,
        path: &[u64],
        row: &Row,
        into: &mut Vec<Pair>,
    ) -> Result<(), AllocError>
        ensures { OnOk result (into.new.items ≡ into.old.items ++ unwanted_of self.now path.now (tree.keys row.now)) }
    {
        let mut numbers = row.keys();
        while let Some(trans) = numbers.next() {
            if self.find(path, *trans).is_none() {
                let path = Path::of(Vec::from_slice(alloc, path)?);
                into.push(Pair {
                    path,
                    trans: *trans,
                })?;
            }
        }
        Ok(())
    }

    /// The pairs at and below the system that have a timer here and none among the wanted.
    fn unwanted(
        &self,
        alloc: Global,
        system: &Path,
        wanted: &Timers,
    ) -> Result<Vec<Pair>, AllocError>
        ensures { IfOk result (λ pairs. (q : Place) → is_among pairs.items q ≡ (is_inside system.now q.path && map.contains_key self.now q && not (map.contains_key wanted.now q))) }
    {
        let mut pairs = Vec::new(alloc);
        let from = Vec::from_slice(alloc, system.items())?;
        let mut rest = self.rows.range(from..);
        while let Some((path, row)) = rest.next() {
            if !path.as_slice().starts_with(system.items()) {
                break;
            }
            wanted.missing(alloc, path.as_slice(), row, &mut pairs)?;
        }
        Ok(pairs)
    }

    /// Drops the timers of these transitions.
    fn drop_started(&mut self, wanted: &[&Wanted])
        ensures { self.new ≡ all_dropped (each pair_of (each (λ w. w.now) wanted.now)) self.old }
    {
        for one in wanted {
            self.drop_one(&one.path, one.trans);
        }
    }

    /// Starts the timers of all these transitions, or of none.
    fn start_all(&mut self, alloc: Global, now: u64, wanted: &[&Wanted]) -> Result<(), AllocError>
        requires { CanStart now (each (λ w. w.now) wanted.now) self.old }
        ensures ok { OnOk result (self.new ≡ all_started now (each (λ w. w.now) wanted.now) self.old) }
        ensures err { OnErr result (self.new ≡ self.old) }
    {
        for (i, one) in wanted.iter().enumerate() {
            if let Err(refused) = self.start(alloc, now, one) {
                self.drop_started(&wanted[..i]);
                return Err(refused);
            }
        }
        Ok(())
    }

    /// Drops the timers of these pairs.
    fn drop_all(&mut self, pairs: &[Pair])
        ensures { self.new ≡ all_dropped pairs.now self.old }
    {
        for one in pairs {
            self.drop_one(&one.path, one.trans);
        }
    }

    /// Renews the timers at and below a system at the moment `now`. `enabled` are the enabled transitions with
    /// a delay of the instances there, each once and in any order: each of them has a timer then, the one
    /// that ran or one that starts now, and no other transition there has one. The only error is want of
    /// memory.
    pub fn renew(
        &mut self,
        alloc: Global,
        system: &Path,
        now: u64,
        enabled: &[Wanted],
    ) -> Result<(), AllocError>
        requires { AreDifferent enabled.now }
        ensures ok { OnOk result (self.new ≡ renewed system.now now enabled.now self.old) }
        ensures err { OnErr result (self.new ≡ self.old) }
    {
        let wanted = Timers::of(alloc, now, enabled)?;
        let stale = self.unwanted(alloc, system, &wanted)?;
        let fresh = self.lacking(alloc, enabled)?;
        self.start_all(alloc, now, &fresh)?;
        self.drop_all(&stale);
        Ok(())
    }
}
