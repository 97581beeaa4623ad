//! What types are, and when Pascal's static rules are broken.
//!
//! It stands on `scope_rules` for what a refusal is and which names a routine uses, and on `estelle_tree`. `types`
//! has types and the values of constants, `meanings` what a name means, and `sites` the kinds of places that the
//! rules speak of.
//!
//! In `specs/`: `Types` says which types are the same, which fit, what an operation gives and what a type has.
//! `Meanings` says what a name in use means, by its declaration and the ones before it. `TypeSites`,
//! `ExpressionSites`, `StatementSites` and `SpecificationSites` are folds over the tree that say what is declared and
//! where the places are that rules speak of. `Routines` says which routines are closed. `PascalRules` has one
//! predicate for each of the rules 40 to 48, and `PascalRuleBroken`.
#![tactic(auto)]

#[tactic(auto, unfolding(crate::specs::Types::ordinal_count, crate::specs::Types::as_type, crate::specs::Types::over_index, crate::specs::Types::with_field, crate::specs::Types::record_type, crate::specs::Types::set_type, crate::specs::Types::subrange, crate::specs::Types::is_no_subrange, crate::specs::Types::is_no_base, crate::specs::Types::is_no_index))]
mod denoted;
mod meanings;
#[tactic(auto, unfolding(crate::specs::Types::gives, crate::specs::ExpressionSites::operated, crate::specs::ExpressionSites::signed_typed, crate::specs::ExpressionSites::negated_typed, crate::specs::ExpressionSites::relating, crate::specs::ExpressionSites::adding_, crate::specs::ExpressionSites::multiplying_, crate::specs::ExpressionSites::next_wanted, crate::specs::ExpressionSites::with_member, crate::specs::ExpressionSites::set_type_of, crate::specs::ExpressionSites::required_argument, crate::specs::ExpressionSites::required_result, crate::specs::ExpressionSites::placed_at, crate::specs::ExpressionSites::where_ordinal))]
mod operations;
#[tactic(auto, using(crate::proofs::RequiredMeanings::required_meanings))]
mod required;
mod sites;
#[tactic(auto, unfolding(crate::specs::Types::fits))]
mod types;

pub use denoted::{
    as_array, at_fault, host_in, is_no_base, is_no_index, is_no_subrange, no_fields, over_index,
    record_type, set_type, simple, subrange, with_field,
};
pub use estelle_tree::Required;
pub use meanings::{
    Entity, Meaning, Parameter, body_of, component_type, constant, constant_host, constant_value,
    index_type, names_function, signed_host, signed_number, signed_value, type_denoted,
    variable_type,
};
pub use operations::{
    adding, gives, is_wanted, multiplying, negated_typed, next_wanted, operated, placed_at,
    relating, required_argument, required_result, set_type_of, signed_typed, value_at,
    where_ordinal, whole_of, with_member,
};
pub use required::required_meaning;
pub use sites::{Access, Members, Operator, Place, PlacedSite, RoutineAt, Site, Typed, Wanted};
pub use types::{
    Base, Denoted, Host, PascalType, Value, fits, host_of, is_array, is_boolean, is_integer, is_of,
    is_ordinal, is_whole_integer, may_be_in, ordinals_fit, same_host, same_type, same_value,
    sets_fit,
};
