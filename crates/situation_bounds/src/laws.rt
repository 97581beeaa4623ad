//! Laws: their contracts are the laws, and they do nothing.

ghost use Rattle.situation_bounds.specs.Bounds.{SelectionsAreBounded, WaitsAreBounded};

/// A scheduled run has at most as many selections as firings, waits for the clock and one more, times the number of its systems,
/// for every chooser and every clock.
pub fn selections_are_bounded<C>()
    ensures { SelectionsAreBounded C }
{}

/// Between two waits for the clock something fires: a scheduled run waits at most once more than it fires.
pub fn waits_are_bounded<C>()
    ensures { WaitsAreBounded C }
{}
