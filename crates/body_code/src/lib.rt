//! The code to which bodies are compiled: instructions, units and their listing.
//!
//! It stands on `estelle_tree` and `pascal_values`. A code is seen as the list of its units in the order of its listing; it may be
//! sent to other threads, and shared by them. What the instructions do is said where they are run.
#![tactic(auto)]

mod code;
mod instr;
mod instrs;
mod lines;
mod places;
mod shared;
mod threads;
mod unit;
mod writing;

pub use code::Code;
pub use instr::{Ends, Instr, Point};
pub use instrs::Instrs;
pub use lines::listing;
pub use shared::Shared;
pub use unit::{CodeUnit, Entry, Heading, Local};
