//! Tests alone: what the machine does with codes that are made by hand, as jobs and as guards of a small specification.
//!
//! It stands on `body_machine_jobs`, and on the layers from which a text comes to it. What is wanted is worked by hand.
#![tactic(auto)]

#[cfg(test)]
mod codes;
#[cfg(test)]
mod guards;
#[cfg(test)]
mod jobs;
#[cfg(test)]
mod subject;
