//! What the instances of a system count, by their guards (ISO/IEC 9074: enabled transitions, priorities, `delay` clauses).
//!
//! It stands on `body_jobs` for who evaluates a guard on a view of an instance's private part, on `situation_images` for
//! what is viewed and for what waits first at an interaction point, on `delay_timers` for the timers that run, and on
//! `transition_select`, whose `AreCountings` says what instances count. Each guard is asked once, up to the first that faults. The
//! timers stay as they are; a renewal with what is wanted leads to the situation in which the instances count this. Nothing of an
//! instance is copied. Where a guard has to be evaluated, the instances at and below its own are looked up and the links that they
//! made copied, once for all guards of the instance.
#![tactic(auto)]

mod guards;
mod selection;

pub use guards::{Offering, ask};
pub use selection::{Chosen, SelectFault, View, any_enabled, select};
