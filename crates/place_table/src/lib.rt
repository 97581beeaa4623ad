//! Tables by place: what is declared where a name begins, in order, and what a place has last.
//!
//! It stands on `indexmap`. A table is seen as the list of its declarations in order. A look-up takes constant time, and a
//! table may lie over others, which stay as they are. Want of memory leaves a table as it was.
#![tactic(auto)]

#[tactic(auto, using(crate::proofs::Over::latest_over))]
mod layers;
mod places;

pub use layers::Layers;
pub use places::Places;
