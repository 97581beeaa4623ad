ghost use Rattle.std.specs.Prelude.{◌≡◌, ◌<◌, ◌≤◌, ℕ};

/// What settles a choice among several candidates that the standard leaves open.
pub trait Chooser {
    /// Of so many candidates the number of the one that is picked, and the chooser that is left.
    ghost draw: { Self → ℕ → ℕ × Self };

    /// Picks one of `n` candidates, by its number from 0.
    fn pick(&mut self, n: u64) -> u64
        requires { 1 ≤ n }
        ensures below { result < n }
        ensures drawn { (result, self.new) ≡ draw self.old n };
}
