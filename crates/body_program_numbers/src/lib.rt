//! The numbers of a specification: what those in the instructions of its code stand for, and the number of each thing that an instruction names.
//!
//! It stands on `body_program` and `body_numbers`, and on `type_shapes` for the shapes.
#![tactic(auto)]

#[tactic(auto, using(crate::proofs::Listing::mapped))]
mod bodies;
#[tactic(auto, using(crate::proofs::Listing::mapped))]
mod kinds;
mod laws;
#[tactic(auto, using(crate::proofs::Listing::one_risen))]
mod lists;
mod numbering;
mod numbers;
#[tactic(auto, using(crate::proofs::OutlineEquations::outlines, estelle_tree::specs::declared::tree::specification::Decl::the_lemmas))]
mod outline;
mod places;
#[tactic(auto, using(crate::proofs::Listing::mapped, estelle_tree::specs::declared::tree::specification::Decl::the_lemmas))]
mod points;

pub use laws::numbers_law;
pub use numbering::Numbering;
