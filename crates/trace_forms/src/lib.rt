//! The events and the end of every run of an accepted specification have the form that a trace can tell.
//!
//! It stands on the definitions of the rules, of the model and of traces, and on what is proved of legal situations, of the fates
//! of outputs and of units. It has definitions, in `specs/`, and laws alone.
#![tactic(auto)]

mod laws;

pub use laws::{parameters_are_readable, runs_have_form};
