//! Whether a trace is that of a run (ISO/IEC 9074: global situations, selection, firing), whatever choices its schedule made.
//!
//! It stands on `situation_state` for the situation that the events so far lead to, on `body_walker` for what firings, the start
//! and guards come to, and on `selection_check` for what a system may select. It goes through the events once: each takes the time
//! that it took in the run, without the choice.
#![tactic(auto)]

mod begin;
mod ending;
mod equality;
mod error;
mod judged_part;
mod judging;
mod putting;

pub use error::JudgeError;
pub use judging::judge;
