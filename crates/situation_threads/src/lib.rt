//! That worlds may be sent to other threads, and programs be read by several.
//!
//! It stands on `situation` and the crates of all that a world keeps. Callers take its facts from `proofs/`: `World_send` of
//! `Worlds`, `CompiledProgram_sync` of `Programs`, and `Job_send`, `Done_send` and `Event_send` of `Values`. `in_two_threads` shows
//! that they serve.
#![tactic(auto)]

mod threads;
