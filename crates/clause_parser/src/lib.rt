//! The parser of labels, blocks and clauses, and of what stands behind `trans`: a block, or groups of
//! clauses (ISO/IEC 9074: nested transitions). It stands on the parsers of statements, expressions and
//! types. A group takes each next clause whose kind does not stand on its way, until a block right behind
//! its clause closes it. That its parsers are those of the forms is proved in `proofs/`, for each room that
//! is left for nesting.
#![tactic(auto)]

mod blocks;
mod clauses;
mod groups;
mod ways;

pub use blocks::block;
pub use clauses::{clause, label};
pub use groups::trans_body;
