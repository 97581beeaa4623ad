//! The check of a unit's kinds: in one pass the stack at each address is found, and each instruction is checked with the one that
//! comes to it.
//!
//! It stands on `body_kinds` for what is checked, and on `body_state` for the types of variables.
#![tactic(auto)]

mod arguments;
mod claims;
mod effects;
mod here;
mod kind;
mod operators;
#[tactic(auto, using(crate::proofs::ShapeEquations::shape_is, estelle_model::specs::declared::denoter::Denoter::the_lemmas))]
mod shapes;
mod stacks;
mod unit;
mod variables;

pub use arguments::are_values;
pub use claims::{Claim, Claims};
pub use here::Here;
pub use kind::{Kind, same_kinds};
pub use shapes::is_shape_of;
pub use unit::is_kinded;
