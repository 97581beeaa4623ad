//! Laws of traces, for callers that have no text at hand.

ghost use Rattle.std.specs.Prelude.{◌≡◌, List, ℕ};
ghost use Rattle.estelle_model.specs.declared.event.Event.{Event};
ghost use Rattle.estelle_model.specs.declared.event.End.{End};
ghost use Rattle.trace_text.specs.Readings.{IsTrace, IsBadLine};

/// A text is the trace of one run with one end, and it has one bad line where it is none.
pub fn one_reading()
    ensures run { (bytes : List ℕ) (events others : List Event) (end_ other : End)
        → IsTrace bytes events end_ → IsTrace bytes others other → (events ≡ others) × (end_ ≡ other) }
    ensures line { (bytes : List ℕ) (line other : ℕ)
        → IsBadLine bytes line → IsBadLine bytes other → line ≡ other }
    ensures apart { (bytes : List ℕ) (events : List Event) (end_ : End) (line : ℕ)
        → IsTrace bytes events end_ → IsBadLine bytes line → ⊥ }
{}
