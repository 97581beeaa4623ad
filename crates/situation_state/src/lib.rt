//! A situation in stores, which goes on by selections and firings (ISO/IEC 9074: global situations, selection, firing).
//!
//! It stands on `situation_images` for jobs, on `situation_offers` for what guards come to and what a system selects, on
//! `effect_log` for what a firing does to the shared state, and on `delay_timers`. `IsAt` (`specs/At`) says for which situation a
//! state stands, and what is left of its pending firings. Who computes a job, and what is kept of a run, is the caller's:
//! `job` gives the job of a firing, and `fire` puts what was computed of it. `take` and `fire` take no memory.
#![tactic(auto)]

mod asking;
mod firing;
mod jobs;
mod list;
mod outcomes;
mod selecting;
mod state;
mod systems;

pub use outcomes::fault_in;
pub use state::State;
pub use systems::is_system_body;
