//! Turns at a world that a board passes round: a pass takes a firing or moves the run on, and commits what was computed.
//!
//! It stands on `turn_board` and `situation`. The history only grows, and each entry has the number of its writer, so what a
//! pass took stays its own, and its job the same, until it commits, whatever others note meanwhile.
#![tactic(auto)]

mod going;
mod settling;
mod turns;
mod work;

pub use turns::{RunBoard, RunPass, commit, exchange, next};
pub use work::Work;
