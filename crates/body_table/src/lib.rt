//! What each name of a specification means: the table of all that its bodies declare.
//!
//! It stands on `meaning_table`, whose `Table` takes the declarations. Definitions, routines, blocks and channels come
//! first, then headers and bodies. `meanings` is the table of the definitions.
#![tactic(auto)]

#[tactic(auto, using(meaning_table::proofs::Declarations::declaring))]
mod blocks;
#[tactic(auto, using(meaning_table::proofs::Declarations::declaring, crate::proofs::BodyEquations::bodies, estelle_tree::specs::declared::tree::specification::Decl::the_lemmas))]
mod bodies;
#[tactic(auto, using(meaning_table::proofs::Declarations::declaring, estelle_tree::specs::declared::tree::specification::Decl::the_lemmas))]
mod brought;
#[tactic(auto, using(meaning_table::proofs::Declarations::declaring))]
mod channels;
#[tactic(auto, using(meaning_table::proofs::Declarations::declaring))]
mod definitions;
#[tactic(auto, using(meaning_table::proofs::Declarations::declaring))]
mod headers;
#[tactic(auto, using(meaning_table::proofs::Declarations::declaring))]
mod node;
#[tactic(auto, using(meaning_table::proofs::Declarations::declaring, crate::proofs::Numbering::numbering, estelle_tree::specs::declared::tree::specification::Decl::the_lemmas))]
mod numbered;
#[tactic(auto, using(crate::proofs::BodyEquations::root_types, estelle_tree::specs::declared::tree::specification::Decl::the_lemmas))]
mod root;
#[tactic(auto, using(meaning_table::proofs::Declarations::declaring))]
mod routines;
#[tactic(auto, using(meaning_table::proofs::Declarations::declaring, crate::proofs::WayEquations::ways_declare, estelle_tree::specs::declared::tree::clause::TransBody::the_lemmas))]
mod ways;

pub use bodies::meanings;
pub use definitions::local_types;
pub use headers::{default_of, push_interaction_points, system_attribute};
pub use root::{push_variable_types, variable_types};
