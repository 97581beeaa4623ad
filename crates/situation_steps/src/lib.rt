//! How a run goes on, step by step: each step that is planned is an event that applies, or a wait for the clock, and what is known
//! of the run so far is known again after it. Of each system is kept whether it awaits a selection and how much of it is pending.
//!
//! It stands on `estelle_model`, on the legal situations of `estelle_model_legality`, and on `effect_log` for where outputs arrive.
//! It has definitions, in `specs/`, and laws alone.
#![tactic(auto)]

mod laws;
mod systems;

pub use laws::{
    clocks_end_selections, clocks_end_waits, dead_ends, faults_end, firings_go_on,
    firings_leave_others, guard_faults_are_planned, none_are_due, selections_go_on, starts_go_on,
    timers_are_waited_for, turns_end, waits_go_on,
};
pub use systems::{System, Time};
