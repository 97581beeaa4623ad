//! The steps that parsers are made of, free of any grammar: a place in a list of tokens, taking one
//! token, a part that may be missing, a part that is repeated. It stands on the places of
//! `estelle_tree`. Each step equals a parser on places; that what those read is spelled so, and that
//! what is spelled so is read, is proved here once for all of them.
#![tactic(auto)]

mod cursor;
mod error;
mod lists;
mod read;

pub use cursor::Cursor;
pub use error::ReadError;
pub use lists::{repeated, separated, separated_if, several};
pub use read::{Begins, Behind, Ended, Optional, Read};
