//! The words of the command line, and what they mean.
//!
//! It stands on `clap`. `settings` answers exactly the definition `meaning` of `specs/Words.antt`, which knows nothing of
//! `clap`: the command word and the shape of the later words are judged before `clap`, which options there are by `clap`,
//! and their numbers after it.
#![tactic(auto)]

mod command;
mod numbers;
mod parser;
mod shape;
mod words;

pub use command::{Command, Settings};
pub use words::settings;
