//! Pascal's static rules on types and routines, the rules 40 to 48, of a specification whose names are resolved.
//!
//! It stands on `declaration_table` for what names mean, on `pascal_check_sites` for where the rules speak of them, on
//! `type_rules` for when each rule is broken there, on `scope_rules` for what a refusal is and which of two breaches is
//! reported, and on `indexmap`. `open_routines` has the routines that are not closed, `rules` what one place breaks, and
//! `reported` the breach that is reported of all places. `check` is Ok exactly where none of these rules is broken.
#![tactic(auto)]

mod open_routines;
mod reported;
mod rules;
mod specification;

pub use reported::judge;
pub use specification::check;
