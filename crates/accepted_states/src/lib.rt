//! Accepted specifications lead to states of their own: each name behind `to` means a state of its body.
//!
//! It stands on the definitions of the rules and of the model. It has definitions, in `specs/`, and laws alone.
#![tactic(auto)]

mod laws;

pub use laws::accepted_lead_to_states;
