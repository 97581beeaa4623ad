//! Tables of rules over the visits of a tree.
//!
//! It stands on `tree_visits` for the walk and on `scope_rules` for what a refusal is and which of two breaches is reported.
//! A crate of rules says by `Rules` what each visit breaks, and `check` reports the least of all that is broken.
#![tactic(auto, using(crate::proofs::NotedLaws::noting))]

mod judge;
mod noting;
mod rules;

pub use judge::check;
pub use noting::{noted_each, noted_where};
pub use rules::Rules;
