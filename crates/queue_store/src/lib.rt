//! The queues of a situation: where interactions wait at interaction points.
//!
//! It stands on `estelle_tree`, whose lists `in_queue`, `moved`, `without_head` and `outside_of` its calls keep
//! (`specs/Holds`, `proofs/HoldsLaws`), on `slab` and on `indexmap`. Items lie in one slab, each with the slot of
//! the next one of its queue. A map has an entry for each declared interaction point; the entry of one of them has
//! the first and the last slot of their queue, and the others tell its number. So each call but `reserve` takes no
//! memory.
#![tactic(auto)]

mod chain;
mod key;
mod queues;
mod table;

pub use queues::Queues;
