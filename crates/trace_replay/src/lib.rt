//! Replays: whether events and an end are those of a run of a specification.
//!
//! It stands on `trace_check`, which judges them by what running knows of a specification, and on `body_program`, which has
//! that. It stands apart from its callers since what is known of a specification is large, and is proved to be dropped here alone.
#![tactic(auto)]

mod replay;

pub use replay::replay_run;
