//! Cuts a text into tokens (ISO 7185, 6.1), and tells places by line and column.
//!
//! It stands on the definition of lexing in `estelle_tree`. It promises that the tokens are exactly
//! those of the text, that a refusal names the first byte at which nothing begins, and that only want
//! of memory is answered besides.
#![tactic(auto)]

mod blank;
mod bytes;
mod error;
mod front;
mod laws;
mod lex;
mod list;
pub mod place;

pub use blank::blank_to_end;
pub use error::LexError;
pub use laws::{spans_follow_one_another, tokens_or_error, unique_tokens};
pub use lex::tokens;
pub use list::Tokens;
