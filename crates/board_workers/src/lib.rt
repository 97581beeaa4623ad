//! Workers that run the bodies of a specification side by side.
//!
//! It stands on `board_runner` for their turns at the world, and on `board_threads` for their threads. A worker computes the firing that it
//! took outside of its turns, between `enter` and `leave` of a `Gate`; then it commits what was computed, and goes on in the same turn. A
//! worker that finds all firings with others sleeps until one is committed.
#![tactic(auto)]

mod crew;
mod gate;
mod news;
mod run;
mod turns;

pub use gate::{FreeGate, Gate};
pub use run::run_workers;
