//! The operators, required functions, types and values of Pascal in code (ISO 7185, 6.4, 6.6.6 and 6.7.2): what an evaluator
//! of bodies computes with, apart from any state.
//!
//! It stands on `estelle_model`, whose operations each call follows, and on `pascal_values`; the parts of `body_walker` stand on it.
#![tactic(auto)]

#[tactic(auto, unfolding(estelle_model::specs::Operators::plus, estelle_model::specs::Operators::minus, estelle_model::specs::Operators::times, estelle_model::specs::Operators::divided, estelle_model::specs::Operators::modulo, estelle_model::specs::Operators::signed, estelle_model::specs::Operators::negation))]
mod arithmetic;
#[tactic(auto, using(crate::proofs::BelongingLemmas::type_belongs_out, crate::proofs::BelongingLemmas::within_belongs, crate::proofs::BelongingLemmas::fields_belong_apart, estelle_model::specs::declared::denoter::Denoter::the_lemmas, pascal_values::specs::declared::value::Value::the_lemmas))]
mod belonging;
#[tactic(auto, unfolding(estelle_model::specs::Operators::related))]
mod comparing;
mod copies;
#[tactic(auto, using(crate::proofs::TypeLemmas::type_assignable_out, crate::proofs::TypeLemmas::ordinal_within, crate::proofs::TypeLemmas::set_within, estelle_model::specs::declared::denoter::Denoter::the_lemmas, pascal_values::specs::declared::value::Value::the_lemmas))]
mod fitting;
mod frames;
#[tactic(auto, unfolding(estelle_model::specs::Operators::one_member, estelle_model::specs::Operators::members_from))]
mod members;
mod ordinals;
mod places;
#[tactic(auto, unfolding(estelle_model::specs::Operators::required_value))]
mod required;
mod stop;
mod types;
mod values;
#[tactic(auto, using(crate::proofs::TypeLemmas::type_blank_out, crate::proofs::TypeLemmas::blanked_out, estelle_model::specs::declared::denoter::Denoter::the_lemmas, pascal_values::specs::declared::value::Value::the_lemmas))]
mod whole;

pub use arithmetic::{divided, minus, modulo, negation, plus, signed, times};
pub use belonging::{are_values_of, may_store};
pub use comparing::related;
pub use copies::{copy_address, copy_links, copy_part_at, copy_values, into_vec};
pub use fitting::{fits, fits_host};
pub use frames::{add_blanks, pop_frame, push_frame, result_number, with_locals};
pub use members::{members_from, one_member};
pub use ordinals::{bool_of, bound_of, int_of, ordinal_of, selector_of, set_value, value_in};
pub use places::{copy_place, deeper};
pub use required::{preceding, required_host, required_value, succeeding};
pub use stop::Stop;
pub use types::{field_of, item_of, item_place};
pub use values::{below, below_frame, loaded, put_below, put_in_frame};
pub use whole::blanked;
