//! Specifications that several crates of tests read or run, and how a text becomes a tree. No tests stand here.
//!
//! It stands on `estelle_parser`, `estelle_lexer` and `spec_accept`.
#![tactic(auto)]

mod counter;
mod forms;
mod pascal;
mod reading;
mod ring;
mod traces;
mod worked;

pub use counter::{COUNTER, counter_with};
pub use forms::{FORMS_THAT_ARE_REFUSED, FORMS_THAT_RUN, TOTAL};
pub use pascal::{FAULTS, HOLDS};
pub use reading::{accepted, judged, tokens_of, tree};
pub use ring::RING_OF_TWO;
pub use traces::{
    COUNTER_TRACE, DEADLOCK, FIRING_OVERFLOWS, GUARD_OVERFLOWS, GUARD_UNSET, OVERFLOW_TRACE,
    OVERFLOWING, SECOND_FIRES, TURNS,
};
pub use worked::{WORKED, Worked};
