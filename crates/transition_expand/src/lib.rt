//! The static rules on clauses and numbers of transitions, the rules 30 to 33, of a specification whose names are resolved,
//! and its flat transitions.
//!
//! It stands on `flat_transitions` for the list and for how many there are, on `declaration_table` and `type_rules` for what
//! names and domains mean to the rules, on `tree_visits` and `visit_rules` for the walk over the tree and the breach that is
//! reported, on `scope_rules` for what a refusal is, and on `place_table`. `specs/TransitionRules` has each rule. `check` and
//! `expand` are Ok exactly where none of them is broken.
#![tactic(auto, using(visit_rules::proofs::NotedLaws::noting))]

mod clauses;
mod domains;
mod expansion;
mod rules;
mod specification;

pub use expansion::{ExpandError, expand};
pub use specification::check;
