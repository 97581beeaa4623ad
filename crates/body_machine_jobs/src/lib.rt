//! Jobs and guards by code: the machine runs their units on the private part of an instance, with a log of effects.
//!
//! It stands on `body_machine`, which runs units, on `body_jobs`, and on `body_program` for what is known of a specification. What it
//! comes to with any code is what `body_machine_meaning` says; with a faithful code it answers the job in every situation.
#![tactic(auto)]

mod blocks;
mod firing;
mod guards;
mod jobs;
mod units;

pub use jobs::{run_guard, run_job};
