//! One walk over the tree of a specification, on which rules and tables stand.
//!
//! It stands on `estelle_tree` alone. `walk` shows a `Visitor` the nodes in text order, each with what it stands in: it
//! comes to the fold of the visitor's step over `visits`.
//!
//! In `specs/`: `Visit` has what a node and its surroundings are, `Visits` the list of visits as one fold over the tree,
//! and `Nodes` says which node the code's reference to one is.
#![tactic(auto, using(crate::proofs::Taken::taken))]

#[tactic(auto, using(crate::proofs::Taken::taken, crate::proofs::BodyEquations::bodies, estelle_tree::specs::declared::tree::specification::Decl::the_lemmas))]
mod bodies;
#[tactic(auto, using(crate::proofs::Taken::taken, crate::proofs::ClauseEquations::clauses, estelle_tree::specs::declared::tree::clause::TransBody::the_lemmas))]
mod clauses;
mod node;
#[tactic(auto, using(crate::proofs::Taken::taken, crate::proofs::StatementEquations::statements, estelle_tree::specs::declared::tree::statement::Stmt::the_lemmas))]
mod statements;
mod visitor;

pub use bodies::walk;
pub use node::{Node, Within};
pub use visitor::Visitor;
