//! The round trip: the canonical text of a tree, lexed and parsed again, gives the same tree, spans aside.
//!
//! It stands on `estelle_tree` for trees and which tokens they spell, on `estelle_printer` for the canonical text, on
//! `estelle_lexer` for the one list of tokens of a text, and on `estelle_parser` for the one tree of a list. What spells a
//! list of tokens is, spans aside, spelled by each other list of the same tokens.
#![tactic(auto)]

mod read_back;
mod respelled;

pub use read_back::{canonical_text_is_read_back, same_trees_spell_the_same};
pub use respelled::{bare_tree_is_spelled, respelled_elsewhere};
