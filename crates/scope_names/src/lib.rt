//! Names: which declaration each name in use means, and rules 1 to 5.
//!
//! It stands on `scope_rules` for what a tree says of names and when a rule is broken, on `scope_names_events` for that
//! list, and on `indexmap`. `Table` has the scopes that are open and the ones that are kept. `resolve` is Ok exactly where
//! no rule on names is broken.
#![tactic(auto)]

#[tactic(auto, using(crate::proofs::Lists::lists))]
mod judge;
#[tactic(auto, using(crate::proofs::Entries::entries))]
mod names;
#[tactic(auto, using(crate::proofs::Lists::lists))]
mod specification;
#[tactic(auto, using(crate::proofs::Entries::entries))]
mod table;

pub use specification::resolve;
