//! Functions of accepted specifications are quiet: they have no statement of Estelle and no procedure statement, and neither their
//! expressions nor those of guards name a procedure.
//!
//! It stands on the definitions of the rules and of the model, on `accepted_states`, and on `guards_seen` for what quiet is. It has
//! a definition, in `specs/`, and the law alone.
#![tactic(auto)]

mod laws;

pub use laws::accepted_functions_are_quiet;
