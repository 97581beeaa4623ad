//! Reads a Pascal expression, type, statement sequence or routine from a place in a list of tokens,
//! where it stands at a given nesting. It stands on the parsers of these forms. Of the
//! pieces from there on that begin such a node, the longest is the answered node's; where no node spells
//! it, the place behind it is told.
#![tactic(auto)]

mod calls;
mod error;
mod reading;

pub use calls::{expression, routine, statements, type_expr};
pub use error::SyntaxError;
