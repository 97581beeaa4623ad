//! A ring of stations as a specification, of a size that is chosen.
//!
//! It stands on `estelle_lexer` and `estelle_parser`, which read the ring's text, and in its proofs on `estelle_printer` and
//! `round_trip`. It promises that the tree is the one that the text in `specs/Ring.antt` spells, in the places of that text, and
//! that this text is in canonical form. That the ring keeps all rules is tested, and not proved.
#![tactic(auto)]

mod ring;

pub use ring::make;
