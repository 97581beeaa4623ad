//! Tests alone, of what systems select, the steps of worlds, runs by another chooser, and the units of firings and guards.
//!
//! It stands on worlds, and on the layers from which a text comes to them.
#![tactic(auto)]

#[cfg(test)]
mod apart;
#[cfg(test)]
mod firings;
#[cfg(test)]
mod selections;
#[cfg(test)]
mod worlds;
