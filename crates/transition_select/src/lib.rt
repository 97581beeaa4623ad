//! What the instances at and below a system count, what they offer of it, and the choice among that (ISO/IEC 9074: a parent goes
//! before its children; of a process each child goes on, of an activity one).
//!
//! It stands on `estelle_model`, whose `Chosen` the choice is, on the laws on trees of instances in `estelle_model_legality`,
//! and on the choosers of `outside`. A choice takes the time of what stands at and below the system.
#![tactic(auto)]

mod choice;
mod countings;
mod offers;
mod spans;

pub use choice::{choose, pick};
pub use countings::{Countable, Counting, is_higher, offered, offers_of};
pub use offers::Offer;
