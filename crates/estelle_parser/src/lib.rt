//! The parser of bodies and of specifications (ISO/IEC 9074), as a recursive descent over one level of
//! nesting at a time. It stands on the parsers of declarations and on the steps of `token_reader`.
#![tactic(auto)]

mod body;
mod error;
mod laws;
mod specification;
mod transition;

pub use body::parts;
pub use error::SyntaxError;
pub use laws::{one_tree, tree_or_place};
pub use specification::parse;
