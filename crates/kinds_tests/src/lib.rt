//! Tests alone: which codes that are made by hand are of good kinds.
//!
//! It stands on `body_kinds_checker`, and on the layers from which a text comes to it. What is wanted is worked by hand.
#![tactic(auto)]

#[cfg(test)]
mod codes;
#[cfg(test)]
mod good;
#[cfg(test)]
mod refused;
#[cfg(test)]
mod subject;
