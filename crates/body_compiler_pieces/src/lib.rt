//! What expressions, statements, routines and clauses are compiled to, in pieces of code: definitions alone.
//!
//! It stands on `body_code` and `estelle_model`. That the machine does with it what they mean is proved in `body_compiler_laws`; the code
//! that makes it is in `body_compiler_emission`.
#![tactic(auto)]
