//! How many outputs a firing makes, and how many children an instance can have: no more than there are units.
//!
//! It stands on `estelle_model`, and on what that proves of steps. It has laws alone.
#![tactic(auto)]

mod laws;

pub use laws::{firings_are_within, starts_are_within};
