//! Cached offers: which transitions of which instances are enabled, and the guards of which instances have to be asked
//! anew (ISO/IEC 9074: enabled transitions).
//!
//! It stands on `estelle_tree`. An `Offers` is seen as its rows and its marks, both in path order, and the number of
//! marks for which there is memory. A transition that is in no row is not enabled, and a guard that faults is never
//! kept. Only `reserve` and `install` take memory, and where it is refused all is as before.
#![tactic(auto)]

mod offers;
mod order;
mod rows;

pub use offers::Offers;
pub use rows::Row;
