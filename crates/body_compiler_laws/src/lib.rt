//! What a whole specification is compiled to, as a definition, and that the machine does with it what its bodies mean.
//!
//! It stands on `body_compiler_pieces`, and on `body_machine`, whose instructions do what the meanings of `estelle_model` say. `proofs/`
//! has that each piece of code does what it stands for, and that a whole code is faithful. Nothing here compiles.
#![tactic(auto)]

mod laws;

pub use laws::{blocks_are_compiled, clauses_are_compiled, compiled_codes_are_faithful};
