//! The evaluator of blocks on source trees: expressions, statements, calls and blocks, of Pascal and of Estelle, as the
//! definitions of `estelle_model` say at the private part with a log.
//!
//! It stands on `body_state`, which keeps instances, links, variables and units, and the effects so far, and on
//! `meaning_table`, which says what names mean. Recursion goes over the nesting of the text and of calls and inits alone.
#![tactic(auto)]

mod blocks;
mod calls;
mod children;
mod expressions;
mod hosts;
mod labels;
mod linking;
mod loops;
mod operands;
mod output;
mod places;
mod points;
mod reached;
mod scope;
mod statements;
mod variables;

pub use blocks::{block, clause};
