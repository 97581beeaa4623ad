//! Tests alone, of reading and printing: words and lists, tokens, pieces of Pascal, whole specifications, where each is
//! refused, and canonical texts.
//!
//! It stands on the lexer, the parsers, the printer and the steps below them. The wanted values are written by hand.
#![tactic(auto)]

#[cfg(test)]
mod canonical;
#[cfg(test)]
mod lexing;
#[cfg(test)]
mod pascal_nodes;
#[cfg(test)]
mod pieces;
#[cfg(test)]
mod refusals;
#[cfg(test)]
mod specification_nodes;
#[cfg(test)]
mod steps;
#[cfg(test)]
mod words;
