ghost use Rattle.std.specs.Prelude.{◌≡◌, max, Some, Ok};

use crate::{Clock, Failed};

/// A clock whose time goes on by waiting alone. It never fails.
#[derive(Clone, Copy, Debug, PartialEq, Eq)]
pub struct VirtualClock {
    pub moment: u64,
}

impl Clock for VirtualClock {
    ghost moment = { λ clock. Some clock.moment };

    ghost faults = { λ _. 0 };

    fn now(&mut self, floor: u64) -> Result<u64, Failed>
        ensures ok { result ≡ Ok (max self.old.moment floor) }
        ensures same { self.new.moment ≡ self.old.moment }
    {
        Ok(self.moment.max(floor))
    }

    fn wait(&mut self, until: u64) -> Result<u64, Failed>
        ensures ok { result ≡ Ok (max self.old.moment until) }
        ensures moment { self.new.moment ≡ max self.old.moment until }
    {
        self.moment = self.moment.max(until);
        Ok(self.moment)
    }

    fn faults(&self) -> u64 {
        0
    }
}
