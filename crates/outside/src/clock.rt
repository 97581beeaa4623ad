ghost use Rattle.std.specs.Prelude.{◌≡◌, ◌≤◌, ℕ, IfOk, OnErr, IfSome, max, Some};
ghost use Rattle.std.specs.declared.option.Option.{Option};
ghost use Rattle.outside.specs.Counts.{HasCause};

use crate::Failed;

/// What is asked for the time. A moment is a number of units of time.
pub trait Clock {
    /// The moment, where the clock tells.
    ghost moment: { Self → Option ℕ };

    /// How often it has failed.
    ghost faults: { Self → ℕ };

    /// A moment no earlier than `floor`, the last one that the caller knows.
    fn now(&mut self, floor: u64) -> Result<u64, Failed>
        ensures floor { IfOk result (λ m. floor ≤ m) }
        ensures told { IfOk result (λ m. IfSome (moment self.old) (λ now. m ≡ max now floor)) }
        ensures same { moment self.new ≡ moment self.old }
        ensures cause { HasCause (faults self.old) (faults self.new) result };

    /// Lets time go on until the moment `until`, and gives the moment that is reached, no earlier
    /// than that. After a failure the moment is as it was.
    fn wait(&mut self, until: u64) -> Result<u64, Failed>
        ensures until { IfOk result (λ m. until ≤ m) }
        ensures told { IfOk result (λ m. IfSome (moment self.old) (λ now. m ≡ max now until)) }
        ensures moved { IfOk result (λ m. IfSome (moment self.old) (λ now. moment self.new ≡ Some m)) }
        ensures err { OnErr result (moment self.new ≡ moment self.old) }
        ensures cause { HasCause (faults self.old) (faults self.new) result };

    /// How often it has failed.
    fn faults(&self) -> u64
        ensures { result ≡ faults self.now };
}
