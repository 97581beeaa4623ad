//! Timers of transitions with a delay (ISO/IEC 9074: `delay` clauses).
//!
//! It stands on `estelle_tree`, whose `Timers` the timers here are seen as, and on std's ordered maps. `renew` is
//! the definition `renewed` there and takes the time of what stands at and below the system, times a logarithm;
//! the look-ups, `drop_one` and `next_due` take that of a logarithm. Only `renew` takes memory, and where it
//! is refused all is as before.
#![tactic(auto)]

mod kept;
mod timers;

pub use timers::Timers;
