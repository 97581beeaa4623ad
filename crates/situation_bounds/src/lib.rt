//! How often a scheduled run selects, and how often it waits for the clock: its firings bound both.
//!
//! It stands on `estelle_model`, whose schedule it speaks of, and on the steps of runs in `situation_steps`. It has definitions,
//! in `specs/`, and laws alone.
#![tactic(auto)]

mod laws;

pub use laws::{selections_are_bounded, waits_are_bounded};
