ghost use Rattle.std.specs.Prelude.{◌≡◌, ◌≤◌, IfOk, OnErr, None, Some, max, unwrap_or};
ghost use Rattle.outside.specs.Counts.{HasCause, CountsFault};

use crate::{Clock, Failed};
use std::time::{self, Instant};

/// The machine's clock: the whole seconds since its first reading, and those that it skipped, since
/// a wait skips seconds in place of sleeping. The moment never falls, even where the machine's clock
/// goes back. Each failed reading is a fault.
#[derive(Drop)]
pub struct MachineClock<R> {
    rt: R,
    first: Option<Instant>,
    /// The whole seconds from the first reading to the last one.
    elapsed: u64,
    skipped: u64,
    faults: u64,
}

impl<R: time::Clock> MachineClock<R> {
    ghost use Rattle.outside.specs.MachineTime.{last_moment, elapsed_seconds, skipped_seconds, seconds_between};

    /// Its time begins with its first reading, which the first call makes.
    pub fn new(rt: R) -> MachineClock<R>
        ensures moment { ⟦<MachineClock<R> as Clock>⟧.moment result ≡ None }
        ensures faults { ⟦<MachineClock<R> as Clock>⟧.faults result ≡ 0 }
        ensures elapsed { elapsed_seconds result ≡ 0 }
        ensures skipped { skipped_seconds result ≡ 0 }
    {
        MachineClock {
            rt,
            first: None,
            elapsed: 0,
            skipped: 0,
            faults: 0,
        }
    }

    /// Goes on to a reading of the machine's clock, and gives the moment.
    fn advance(&mut self, now: Instant) -> u64
        ensures moment { result ≡ last_moment self.new }
        ensures first { self.new.first ≡ Some (unwrap_or self.old.first now) }
        ensures elapsed { self.new.elapsed ≡ max self.old.elapsed (seconds_between (unwrap_or self.old.first now) now) }
        ensures skipped { self.new.skipped ≡ self.old.skipped }
        ensures faults { self.new.faults ≡ self.old.faults }
    {
        let first = self.first.unwrap_or(now);
        self.first = Some(first);
        self.elapsed = self.elapsed.max(now.duration_since(first).as_secs());
        self.elapsed.saturating_add(self.skipped)
    }

    /// Reads the machine's clock, and gives the moment.
    fn read(&mut self) -> Result<u64, Failed>
        ensures moment { IfOk result (λ m. m ≡ last_moment self.new) }
        ensures later { self.old.elapsed ≤ self.new.elapsed }
        ensures skipped { self.new.skipped ≡ self.old.skipped }
        ensures err { OnErr result (self.new.elapsed ≡ self.old.elapsed) }
        ensures cause { HasCause self.old.faults self.new.faults result }
        ensures count { CountsFault self.old.faults self.new.faults result }
    {
        match Instant::now(&self.rt) {
            Ok(now) => Ok(self.advance(now)),
            Err(_) => {
                self.faults = self.faults.saturating_add(1);
                Err(Failed)
            }
        }
    }
}

impl<R: time::Clock> Clock for MachineClock<R> {
    ghost use Rattle.outside.specs.MachineTime.{clock_faults, elapsed_seconds, last_moment, moment_of, skipped_seconds};

    ghost moment = { λ _. None };

    ghost faults = { clock_faults };

    fn now(&mut self, floor: u64) -> Result<u64, Failed>
        ensures floor { IfOk result (λ m. floor ≤ m) }
        ensures cause { HasCause (clock_faults self.old) (clock_faults self.new) result }

        // It skips nothing.
        ensures reading { IfOk result (λ m. m ≡ max (last_moment self.new) floor) }
        ensures later { elapsed_seconds self.old ≤ elapsed_seconds self.new }
        ensures skipped { skipped_seconds self.new ≡ skipped_seconds self.old }
        ensures unread { OnErr result (elapsed_seconds self.new ≡ elapsed_seconds self.old) }
        ensures count { CountsFault (clock_faults self.old) (clock_faults self.new) result }
    {
        let moment = self.read()?;
        Ok(moment.max(floor))
    }

    fn wait(&mut self, until: u64) -> Result<u64, Failed>
        ensures until { IfOk result (λ m. until ≤ m) }
        ensures cause { HasCause (clock_faults self.old) (clock_faults self.new) result }

        // It skips just so many seconds that `until` is reached.
        ensures reading { IfOk result (λ m. m ≡ last_moment self.new) }
        ensures reached { IfOk result (λ m.
            m ≡ max (moment_of (elapsed_seconds self.new) (skipped_seconds self.old)) until) }
        ensures later { elapsed_seconds self.old ≤ elapsed_seconds self.new }
        ensures skipped { skipped_seconds self.old ≤ skipped_seconds self.new }
        ensures unread { OnErr result (elapsed_seconds self.new ≡ elapsed_seconds self.old) }
        ensures none_skipped { OnErr result (skipped_seconds self.new ≡ skipped_seconds self.old) }
        ensures count { CountsFault (clock_faults self.old) (clock_faults self.new) result }
    {
        let moment = self.read()?;
        if moment < until {
            self.skipped += until - moment;
            return Ok(until);
        }
        Ok(moment)
    }

    fn faults(&self) -> u64 {
        self.faults
    }
}
