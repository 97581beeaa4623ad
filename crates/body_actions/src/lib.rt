//! The statements of Estelle as far as they evaluate nothing: at interaction points, paths and values (ISO/IEC 9074: init, release,
//! connect, disconnect, attach, detach, output).
//!
//! It stands on the walk of `body_state`; the evaluator stands on it.
#![tactic(auto)]

mod children;
mod linking;
mod output;
mod points;

pub use children::{begin_child, disconnect_child, hold_child, may_begin, release_child};
pub use linking::{attach_points, connect_points, detach_point, disconnect_point};
pub use output::{output_at, types_received};
