//! The units of a specification's code: of routines, blocks, initializations and clauses.
//!
//! It stands on `body_compiler_pieces`, whose definitions it follows: each function says by which piece the unit that is being written
//! has grown. What has no code is answered as want of memory.
#![tactic(auto)]

mod acts;
mod control;
#[tactic(auto, unfolding(crate::specs::Drafts::with_instr, crate::specs::Drafts::with_instr_at, crate::specs::Drafts::with_temporary, crate::specs::Drafts::fork_closed, crate::specs::Drafts::loop_closed, crate::specs::Drafts::repeat_closed, crate::specs::Drafts::count_closed))]
mod draft;
mod expressions;
mod labels;
mod names;
mod operators;
mod places;
#[tactic(auto, unfolding(crate::specs::Scopes::scope_of))]
mod scope;
mod shapes;
mod statements;
mod units;

pub use units::{clause_unit, routine_unit, true_unit};
