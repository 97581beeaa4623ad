//! The places in a specification that rules on types and routines speak of, and the types of its expressions.
//!
//! It stands on `declaration_table` for what names mean, and computes the folds of `type_rules` over expressions,
//! statements, types, definitions, clauses and bodies: each function adds to a list exactly the sites of the definition
//! that its contract names. The sites of one part are gathered in a list of their own, and put once behind those of the
//! parts before it, with where they stand. So each site is copied once, however deep its body stands in others.
#![tactic(auto)]

#[tactic(auto, using(crate::proofs::Walks::walks, crate::proofs::Walks::groups, estelle_tree::specs::declared::tree::clause::TransBody::the_lemmas))]
mod clauses;
#[tactic(auto, using(crate::proofs::Walks::walks))]
mod definitions;
#[tactic(auto, using(crate::proofs::SiteLists::sites, type_rules::proofs::ExpressionEquations::expressions, estelle_tree::specs::declared::tree::expression::Factor::the_lemmas))]
mod expressions;
#[tactic(auto, using(crate::proofs::StatementLists::sites))]
mod labels;
#[tactic(auto, using(crate::proofs::Walks::walks))]
mod node;
#[tactic(auto, using(crate::proofs::SiteLists::sites), unfolding(type_rules::specs::ExpressionSites::component_of, type_rules::specs::ExpressionSites::field_typed))]
mod places;
#[tactic(auto, using(crate::proofs::StatementLists::sites, estelle_tree::specs::declared::tree::expression::Factor::the_lemmas))]
mod simple;
#[tactic(auto, using(crate::proofs::Walks::walks, crate::proofs::Walks::bodies, estelle_tree::specs::declared::tree::specification::Decl::the_lemmas))]
mod specification;
#[tactic(auto, using(crate::proofs::StatementLists::sites, type_rules::proofs::StatementEquations::statements, estelle_tree::specs::declared::tree::statement::Stmt::the_lemmas))]
mod statements;
#[tactic(auto, using(crate::proofs::Walks::walks, estelle_tree::specs::declared::tree::type_expr::TypeExpr::the_lemmas))]
mod types;
#[tactic(auto, using(crate::proofs::SiteLists::sites, type_rules::proofs::ExpressionEquations::expressions))]
mod wanted;

pub use specification::sites;
