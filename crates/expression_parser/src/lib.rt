//! The parser of expressions, of lists of them, and of variables, as a recursive descent over one level
//! of nesting at a time. It stands on the steps of `token_reader`, on forms and on trees.
//! That its parsers are those of the forms is proved in `proofs/`, for each room that is left for nesting.
#![tactic(auto)]

mod access;
mod expression;
mod factor;
mod operation;
mod operator;

pub use expression::{ExprAt, args, expr, variable};
