//! The evaluator of bodies on trees: firings, the start and guards, each on the private part of its instance, with a log of effects.
//!
//! It stands on `body_walker_blocks`, which runs blocks, on `body_program` for what is known of a specification, and on `body_jobs`.
//! What it computes is what `estelle_model` says is computed on a log, and so it answers the job in every situation.
#![tactic(auto)]

mod firing;
mod guards;
mod plain;
mod trees;

pub use body_program::Program;
pub use body_state::View;
pub use plain::{fire_plain, guard_plain};
pub use trees::ByTrees;
