//! The compiler of a whole specification: the code that does what its bodies mean.
//!
//! It stands on `body_compiler_emission`, which writes each unit, and on the law of `body_compiler_laws` that a code with all its units
//! is faithful. The units of each body come in the order of the listing. A code of more than 2^26 instructions is want of memory.
#![tactic(auto)]

mod bodies;
mod compiler;
mod references;
mod transitions;
mod units;

pub use compiler::compile;
