//! Whether a specification keeps all static rules: the rules on names, on attributes of modules, on channels and links, on
//! clauses and numbers of transitions, and on types and routines.
//!
//! It stands on `scope_names`, `attribute_rules`, `channel_roles`, `transition_expand` and `pascal_check`, each of which reports
//! the least of its own rules, and on `scope_rules` for what a refusal is. `accept` reports the least of all.
#![tactic(auto)]

mod checked;
mod least;

pub use checked::Checked;
pub use least::accept;
