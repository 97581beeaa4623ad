//! The machine that runs the code of bodies: instructions one by one, each unit with a stack of its own.
//!
//! It stands on `body_code`, and on the walk of `body_state`; each instruction is made of the steps of which `estelle_model`
//! makes the meaning of bodies. Calls of a text are units on a list of those that wait, no calls of this program. It promises that a
//! run of any code ends, and comes to what its definition says.
#![tactic(auto)]

mod activation;
mod ahead;
mod calls;
mod children;
mod estelle;
mod frames;
mod given;
mod item;
mod jumps;
mod machine;
#[tactic(auto, unfolding(estelle_model::specs::Operators::required_value))]
mod operators;
mod places;
mod runs;
mod spare;
mod stack;
mod step;
mod values;

pub use activation::{Activation, Return};
pub use given::add_blanks;
pub use item::Item;
pub use machine::Machine;
pub use places::after;
pub use runs::run;
pub use stack::Stack;
