//! A lock that passes its value round by tickets, for values that only grow.
//!
//! It stands on the library `atomic_table`. A `Board` keeps a value whose entries only grow, each with the number of
//! its writer (`Recorded`). A thread has a `Pass`; `turn` waits for its turn and gives the value, `end` hands it on.
//! A turn finds all that its pass has seen, and of the pass's own entries just those that it added; where no other
//! turn came between, it finds the very value that its pass left. What clauses say of a board stands in `specs/Passes`.
//! Only `set_up` takes memory.
//!
//! The board's table has three words, `ticket`, `turn` and `length`, and one slot, which has the value while no pass
//! has it. What holds of them between any two steps is the rule in `specs/Rule`; what a step does is in `specs/Steps`.
#![tactic(auto)]

mod board;
mod pass;
mod plays;
mod recorded;
mod seats;
mod steps;
mod threads;
mod turns;
mod views;

pub use board::Board;
pub use pass::{Pass, PassOf};
pub use recorded::Recorded;
pub use turns::Turn;
