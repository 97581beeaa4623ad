//! Laws: their contracts are the laws, and they do nothing.

ghost use Rattle.situation_units.specs.Counting.{FiringsAreWithin, StartsAreWithin};

/// A firing makes no more outputs, and no more children of an instance, than it has units.
pub fn firings_are_within()
    ensures { FiringsAreWithin }
{}

/// Nor does the start.
pub fn starts_are_within()
    ensures { StartsAreWithin }
{}
