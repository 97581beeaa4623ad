//! What a guard sees of a situation, and how long the offers of transitions that were enabled stay right.
//!
//! It stands on `estelle_model`, and on the legal situations of `estelle_model_legality`. It has definitions, in `specs/`, and laws
//! alone.
#![tactic(auto)]

mod laws;

pub use laws::{guards_see_their_own, offers_become_fresh, offers_stay_fresh};
