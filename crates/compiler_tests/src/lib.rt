//! Tests alone: the listings of what whole specifications are compiled to.
//!
//! It stands on `compiled_program`. The wanted texts are worked by hand.
#![tactic(auto)]

#[cfg(test)]
mod blocks;
#[cfg(test)]
mod compiled;
#[cfg(test)]
mod wholes;
