//! The run of a specification as it goes on: the situation that it has come to, what is pending, and its history
//! (ISO/IEC 9074: global situations, selection, firing).
//!
//! It stands on `situation_state` for the situation, on `compiled_program` for guards and firings, on `run_history`, and on the
//! laws of `situation_steps`.
//!
//! A step looks at each system for the first that is due. A selection asks each guard of its system anew, and copies nothing for
//! that: where something has to be evaluated, the instances at and below the guard's own are looked up, and all links looked
//! through, once for each instance. A firing copies the private part of its instance.
#![tactic(auto)]

mod advancing;
mod begin;
mod committing;
mod delays;
mod execution;
mod executor;
mod laws;
mod limits;
mod putting;
mod recorded;
mod stepping;
mod systems;
mod tickets;
mod world;

pub use executor::execute;
pub use laws::planned_steps_reach;
pub use limits::{Advanced, Committed, Limits, Stepped};
pub use world::World;
