//! The program of an accepted specification, which leads to states of its own.
//!
//! It stands on `spec_accept` for what is accepted, on `accepted_states` for the law, and on `body_program`. What runs a
//! specification from its start takes an `AcceptedProgram`, and so asks nothing of its callers.
#![tactic(auto)]

mod program;

pub use program::AcceptedProgram;
