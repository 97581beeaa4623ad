//! The decision whether a system may select a given list of firings (ISO/IEC 9074: a parent goes before its children; of a
//! process each child goes on, of an activity one).
//!
//! It stands on `estelle_model`, whose `Selects` it decides, on `transition_select`, whose `AreCountings` says what instances
//! count, and on the laws on trees of instances there and in `estelle_model_legality`. It takes no memory, and the time of what
//! stands at and below the system, times the depth of activities in a row of which a child selects something.
#![tactic(auto)]

mod countings;
mod selection;

pub use selection::may_select;
pub use transition_select::{Countable, Counting};
