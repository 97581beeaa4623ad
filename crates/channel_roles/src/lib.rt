//! The static rules on channels, roles and links, the rules 20 to 25, of a specification whose names are resolved.
//!
//! It stands on `module_table` for what names mean, on `tree_visits` and `visit_rules` for the walk over the tree and the
//! breach that is reported, and on `scope_rules` for what a refusal is. `specs/ChannelRules` has each rule. `check` is Ok
//! exactly where none of them is broken.
#![tactic(auto, using(visit_rules::proofs::NotedLaws::noting))]

mod points;
mod roles;
mod rules;
mod specification;

pub use specification::check;
