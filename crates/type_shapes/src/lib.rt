//! The shapes of the types that stand in a specification, in text order, and the first of them that is a given one.
//!
//! It stands on `meaning_table` for what types denote and on `tree_visits` for the walk.
#![tactic(auto)]

mod numbered;
#[tactic(auto, using(crate::proofs::NodeEquations::types, estelle_tree::specs::declared::tree::type_expr::TypeExpr::the_lemmas))]
mod seen;
#[tactic(auto, using(crate::proofs::ShapeEquations::shape_is, estelle_model::specs::declared::denoter::Denoter::the_lemmas))]
mod shape;
#[tactic(auto, using(crate::proofs::SpellingEquations::spelling_rules, pascal_values::specs::declared::value::Shape::the_lemmas))]
mod spellings;

pub use numbered::NumberedShapes;
pub use seen::all_shapes;
pub use shape::shape_of;
pub use spellings::spelling;
