//! A law: its contract is the law, and it does nothing.

ghost use Rattle.run_counts.specs.Counts.{OutputsAreWithin};

/// A run makes no more outputs than its start and its firings have units.
pub fn outputs_are_within()
    ensures { OutputsAreWithin }
{}
