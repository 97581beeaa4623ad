ghost use Rattle.std.specs.Prelude.{◌≡◌, ◌≤◌, ◌↔◌, Some, IfOk, OnErr, IsErr, Contains, max};
ghost use Rattle.outside.specs.Counts.{HasCause, CountsFault, next_count};

use crate::{Clock, Failed};

/// A clock whose time goes on by waiting alone, and that fails at the calls listed in `failing`,
/// counted from 1.
#[derive(Drop)]
pub struct ScriptClock {
    pub moment: u64,
    pub failing: Vec<u64>,
    pub calls: u64,
    pub faults: u64,
}

impl Clock for ScriptClock {
    ghost moment = { λ clock. Some clock.moment };

    ghost faults = { λ clock. clock.faults };

    fn now(&mut self, floor: u64) -> Result<u64, Failed>
        ensures floor { IfOk result (λ m. floor ≤ m) }
        ensures told { IfOk result (λ m. m ≡ max self.old.moment floor) }
        ensures same { self.new.moment ≡ self.old.moment }
        ensures cause { HasCause self.old.faults self.new.faults result }
        ensures calls { self.new.calls ≡ next_count self.old.calls }
        ensures listed { IsErr result ↔ Contains self.old.failing.items self.new.calls }
        ensures count { CountsFault self.old.faults self.new.faults result }
        ensures failing_kept { self.new.failing ≡ self.old.failing }
    {
        self.calls = self.calls.saturating_add(1);
        if self.failing.contains(&self.calls) {
            self.faults = self.faults.saturating_add(1);
            return Err(Failed);
        }
        Ok(self.moment.max(floor))
    }

    fn wait(&mut self, until: u64) -> Result<u64, Failed>
        ensures until { IfOk result (λ m. until ≤ m) }
        ensures told { IfOk result (λ m. m ≡ max self.old.moment until) }
        ensures moved { IfOk result (λ m. self.new.moment ≡ m) }
        ensures err { OnErr result (self.new.moment ≡ self.old.moment) }
        ensures cause { HasCause self.old.faults self.new.faults result }
        ensures calls { self.new.calls ≡ next_count self.old.calls }
        ensures listed { IsErr result ↔ Contains self.old.failing.items self.new.calls }
        ensures count { CountsFault self.old.faults self.new.faults result }
        ensures failing_kept { self.new.failing ≡ self.old.failing }
    {
        self.calls = self.calls.saturating_add(1);
        if self.failing.contains(&self.calls) {
            self.faults = self.faults.saturating_add(1);
            return Err(Failed);
        }
        self.moment = self.moment.max(until);
        Ok(self.moment)
    }

    fn faults(&self) -> u64 {
        self.faults
    }
}
