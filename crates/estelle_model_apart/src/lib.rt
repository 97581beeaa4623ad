//! What other events leave of a pending firing: while the run goes on elsewhere, it finds what it found before, and what was
//! computed of it answers still.
//!
//! It stands on `estelle_model`, on the legal situations of `estelle_model_legality`, and on `estelle_model_answers` for what a
//! firing does. It has definitions, in `specs/`, and laws alone.
#![tactic(auto)]

mod laws;

pub use laws::{answers_hold_later, events_are_apart, events_leave_the_apart};
