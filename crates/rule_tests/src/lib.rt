//! Tests alone, of the static rules: texts that keep them, and texts that break one, with the node; and of the ring that is made,
//! which keeps them all.
//!
//! It stands on the crates of these rules, on the reading below them, and on `spec_maker`. A comment in a text tells what is wanted.
#![tactic(auto)]

#[cfg(test)]
mod attributes;
#[cfg(test)]
mod channels;
#[cfg(test)]
mod least;
#[cfg(test)]
mod marks;
#[cfg(test)]
mod names;
#[cfg(test)]
mod rings;
#[cfg(test)]
mod transitions;
#[cfg(test)]
mod types;
