//! What is computed of a job apart from the situation answers for every situation in which it is the job.
//!
//! It stands on `estelle_model`: its blocks mean the same on a situation, where they act at once, and on
//! a log of their effects. It has laws alone.
#![tactic(auto)]

mod laws;

pub use laws::{guards_are_answered, jobs_are_answered};
