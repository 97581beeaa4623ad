//! Kinds of what instructions take and leave, and which codes are of good kinds: definitions alone.
//!
//! It stands on `body_code` and `body_numbers`, and on `estelle_model` for what is declared. `specs/Kinds.antt` has the kinds,
//! `specs/Kinded.antt` the table of instructions and what a unit of good kinds is, `specs/Good.antt` what such a code is.
#![tactic(auto)]
