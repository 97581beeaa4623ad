//! What is counted of a run: firings, selections, outputs and those that were lost; and the line that tells it.
//!
//! It stands on `estelle_model`, which has events, and on the laws of `estelle_model_fates` and `situation_units` on outputs.
#![tactic(auto)]

mod counts;
mod laws;
mod line;

pub use laws::outputs_are_within;
pub use line::counts_line;
