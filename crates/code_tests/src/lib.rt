//! Tests alone: listings of codes that are made by hand, and the units of a code by their places.
//!
//! It stands on `body_code`. The wanted texts are worked by hand.
#![tactic(auto)]

#[cfg(test)]
mod listings;
#[cfg(test)]
mod places;
#[cfg(test)]
mod units;
