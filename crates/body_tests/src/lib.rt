//! Tests alone, of what bodies are run by: the values of Pascal, the parts of the evaluator, what firings of modules log and how
//! they fault, and the lists of flat transitions.
//!
//! It stands on the evaluator of bodies, and on the layers from which a text comes to it.
#![tactic(auto)]

#[cfg(test)]
mod jobs;
#[cfg(test)]
mod lists;
#[cfg(test)]
mod modules;
#[cfg(test)]
mod transitions;
#[cfg(test)]
mod values;
#[cfg(test)]
mod walker;
