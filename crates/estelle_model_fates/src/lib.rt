//! The fate of each output of a run: it is lost, waits at the end, is consumed, or is dropped, and just one of these, once.
//! And the order in which interactions leave a queue.
//!
//! It stands on `estelle_model` and `estelle_model_legality`. It has definitions, in `specs/`, and laws alone.
#![tactic(auto)]

mod laws;

pub use laws::{first_in_is_first_out, outputs_have_one_fate};
