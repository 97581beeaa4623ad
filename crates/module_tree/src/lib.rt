//! The module instances of a situation, by their paths: each with what is kept of it and how many children it
//! has had.
//!
//! It stands on `estelle_tree` and `indexmap`. A `Tree` is seen as a finite map from paths, and the number of
//! instances for which there is memory. A path is looked up at once; children are listed, and instances removed,
//! without a walk over the others. Only `single`, `reserve`, `children` and `below` take memory.
#![tactic(auto)]

mod nodes;
mod tree;
mod walk;

pub use tree::{Missing, NoSuch, Tree, TreeError};
