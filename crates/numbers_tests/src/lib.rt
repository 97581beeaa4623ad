//! Tests alone: the numbers of a specification.
//!
//! It stands on `body_program_numbers`, and on the layers from which a text comes to it. The wanted numbers are counted by hand.
#![tactic(auto)]

#[cfg(test)]
mod listed;
#[cfg(test)]
mod sought;
#[cfg(test)]
mod text;
