//! The check of a code's kinds: what is claimed of each unit is found first, and then each unit is checked with what is claimed of
//! all.
//!
//! It stands on `body_unit_kinds`, and on `body_program_numbers` for what numbers stand for.
#![tactic(auto)]

mod checker;
mod claiming;
mod entries;
mod opening;
mod places;
mod presence;
mod variables;

pub use checker::is_kinded;
