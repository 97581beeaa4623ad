//! An accepted specification with the code of its bodies, which the machine runs.
//!
//! It stands on `body_compiler`, which makes the code, on `body_machine_jobs`, which runs firings and guards by it, and on
//! `accepted_program`. What runs a specification takes a `CompiledProgram`, and so asks nothing of its callers.
#![tactic(auto)]

mod program;

pub use program::CompiledProgram;
