//! The canonical text of a specification.
//!
//! It stands on `estelle_tree` for tokens, trees and which tokens a tree spells. It promises that the text is
//! the canonical one of the tokens that the tree spells, that a tree spells at most one list of tokens, their
//! places aside, and that the text is lexed to these tokens again.
#![tactic(auto, using(crate::proofs::WritingLemmas::writes))]

mod canonical;
#[tactic(auto, using(crate::proofs::WritingLemmas::writes, crate::proofs::ClauseEquations::clauses, estelle_tree::specs::declared::tree::clause::TransBody::the_lemmas))]
mod clauses;
mod declarations;
#[tactic(auto, using(crate::proofs::WritingLemmas::writes, crate::proofs::ExpressionEquations::expressions, estelle_tree::specs::declared::tree::expression::Factor::the_lemmas))]
mod expressions;
mod laws;
mod node;
#[tactic(auto, using(crate::proofs::WritingLemmas::writes, crate::proofs::SpecificationEquations::bodies, estelle_tree::specs::declared::tree::specification::Decl::the_lemmas))]
mod specification;
#[tactic(auto, using(crate::proofs::WritingLemmas::writes, crate::proofs::StatementEquations::statements, estelle_tree::specs::declared::tree::statement::Stmt::the_lemmas))]
mod statements;
mod terminal;
#[tactic(auto, using(crate::proofs::WritingLemmas::writes, crate::proofs::TypeEquations::types, estelle_tree::specs::declared::tree::type_expr::TypeExpr::the_lemmas))]
mod types;
mod writer;

pub use canonical::spell;
pub use laws::{canonical_text_is_lexed, spells_one_list};
