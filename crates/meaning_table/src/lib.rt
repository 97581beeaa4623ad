//! What each name in use means, as a table, and what constants, types, routines and blocks declare in it.
//!
//! It stands on `estelle_model`, whose definitions a `Table` follows, and on `place_table` for what stands at a place.
#![tactic(auto)]

#[tactic(auto, using(pascal_values::specs::declared::value::Value::the_lemmas), unfolding(estelle_model::specs::Operators::signed))]
mod constants;
#[tactic(auto, using(estelle_model::specs::declared::denoter::Denoter::the_lemmas))]
mod copying;
#[tactic(auto, using(crate::proofs::Declarations::declaring))]
mod declaring;
mod hosts;
mod kinds;
mod required;
#[tactic(auto, using(crate::proofs::Declarations::declaring, crate::proofs::TypeEquations::types))]
mod sections;
mod states;
#[tactic(auto, using(place_table::proofs::Over::latest_first))]
mod table;
#[tactic(auto, using(crate::proofs::Declarations::declaring, crate::proofs::TypeEquations::types, estelle_tree::specs::declared::tree::type_expr::TypeExpr::the_lemmas))]
mod type_parts;
#[tactic(auto, using(crate::proofs::TypeEquations::types, estelle_tree::specs::declared::tree::type_expr::TypeExpr::the_lemmas, estelle_model::specs::declared::denoter::Denoter::the_lemmas))]
mod types;
#[tactic(auto, using(crate::proofs::Uses::uses, place_table::proofs::Over::latest_first))]
mod used;

pub use constants::{
    bound, const_meaning, host_of_const, ordinal_by_sign, ordinal_named, ordinal_of,
    ordinal_of_const,
};
pub use declaring::{behind, declare_plain, declare_variables};
pub use hosts::whole;
pub use kinds::{PlainKind, VariableKind};
pub use sections::{Alone, Base, Section, declare_section, declare_sections, push_types};
pub use states::states_named;
pub use table::Table;
pub use type_parts::{declare_ordinal, declare_type, declare_types};
pub use types::{enumeration, named_type, ordinal_type, range_in, type_of};
