//! Workers at a board, each in a thread of its own.
//!
//! It stands on `turn_board`. A `Labour` is what each worker does with its pass. `work_on` makes a board round a value, lets its passes
//! work, and gives the value that they leave.
#![tactic(auto)]

mod labour;
mod workers;

pub use labour::Labour;
pub use workers::work_on;
