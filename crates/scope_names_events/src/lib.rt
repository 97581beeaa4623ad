//! The events of a tree: what it says of scopes and names, as one list.
//!
//! It stands on `scope_rules`, whose fold over the tree it computes: `events` gives exactly that list.
#![tactic(auto, using(crate::proofs::WritingLemmas::writes))]

#[tactic(auto, using(crate::proofs::WritingLemmas::writes, crate::proofs::ClauseEquations::clauses, estelle_tree::specs::declared::tree::clause::TransBody::the_lemmas))]
mod clauses;
mod declarations;
#[tactic(auto, using(crate::proofs::WritingLemmas::writes, crate::proofs::ExpressionEquations::expressions, estelle_tree::specs::declared::tree::expression::Factor::the_lemmas))]
mod expressions;
mod node;
#[tactic(auto, using(crate::proofs::WritingLemmas::writes, crate::proofs::SpecificationEquations::bodies, estelle_tree::specs::declared::tree::specification::Decl::the_lemmas))]
mod specification;
#[tactic(auto, using(crate::proofs::WritingLemmas::writes, crate::proofs::StatementEquations::statements, estelle_tree::specs::declared::tree::statement::Stmt::the_lemmas))]
mod statements;
#[tactic(auto, using(crate::proofs::WritingLemmas::writes, crate::proofs::TypeEquations::types, estelle_tree::specs::declared::tree::type_expr::TypeExpr::the_lemmas))]
mod types;
mod writer;

pub use specification::events;
