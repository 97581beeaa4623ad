//! The static rules on attributes of modules, the rules 10 to 14, of a specification whose names are resolved.
//!
//! It stands on `module_table` for what names mean, on `tree_visits` and `visit_rules` for the walk over the tree and the
//! breach that is reported, and on `scope_rules` for what a refusal is. `specs/AttributeRules` has each rule. `check` is Ok
//! exactly where none of them is broken.
#![tactic(auto, using(visit_rules::proofs::NotedLaws::noting))]

mod attributes;
mod rules;
mod specification;

pub use specification::check;
