//! The parser of statements, of the statement part of a block, and of routines, as a recursive descent
//! over one level of nesting at a time. It stands on the parsers of expressions and types and on the
//! steps of `token_reader`. That its parsers are those of the forms is proved in `proofs/`, for each room
//! that is left for nesting.
#![tactic(auto)]

mod block;
mod sequence;
mod simple;
mod structured;

pub use block::{RoutineAt, StatementPartAt, block_decls, routine, statement_part};
pub use sequence::{StmtsAt, stmt, stmts};
