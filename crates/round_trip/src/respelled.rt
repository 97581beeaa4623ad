//! Laws of trees and the places of their tokens. These functions do nothing: their contracts are the laws.

ghost use Rattle.round_trip.specs.Same.{BareIsSpelled, RespelledElsewhere};

/// A tree that spells a list of tokens is, with its spans moved, spelled by each other list of the same
/// tokens.
pub fn respelled_elsewhere()
    ensures { RespelledElsewhere }
{}

/// A tree without its spans spells the same tokens without their places: nothing but spans is lost.
pub fn bare_tree_is_spelled()
    ensures { BareIsSpelled }
{}
