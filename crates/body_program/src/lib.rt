//! What running knows of a specification before any instance runs: what its names mean, each of its bodies as the evaluator
//! asks for it, and the flat transitions of each body with their blocks.
//!
//! It stands on `body_state` for the types of bodies, on `flat_transitions`, and on the tables of meanings.
#![tactic(auto)]

mod choices;
#[tactic(auto, using(crate::proofs::Numbered::numbered))]
mod flat;
mod headings;
#[tactic(auto, using(estelle_tree::specs::declared::tree::specification::Decl::the_lemmas))]
mod own;
mod program;
mod routines;
#[tactic(auto, using(crate::proofs::Telling::telling, estelle_tree::specs::declared::tree::specification::Decl::the_lemmas))]
mod standings;

pub use choices::with_choices;
pub use flat::BodyTransitions;
pub use program::Program;
