//! What a code makes of jobs and guards, and when it is faithful to the specification: definitions alone.
//!
//! It stands on `body_machine`. `specs/Executed.antt` has what the machine comes to for a job and for a guard, with any code;
//! `specs/Faithful.antt` for which codes that is what `estelle_model` computes of them.
#![tactic(auto)]
