//! What a firing does to the shared state: its effects are made, one after another, on the stores of a situation, and then
//! the records of its image are written.
//!
//! It stands on `estelle_model`, whose definitions of effects and of what is put into a situation it follows, on
//! `estelle_model_legality` for the situations in which it is called, and on the stores `module_tree`, `queue_store` and
//! `link_ops`. `Stands` (`specs/Standing`) says when the shared state stands for a situation; `apply` makes it stand for the
//! situation after the firing, and takes no memory, since `reserve_for` made the room.
#![tactic(auto)]

mod disciplines;
mod firing;
mod laws;
mod made;
mod needs;
mod notes;
mod records;
mod reserve;
mod shared;
mod stores;

pub use disciplines::Disciplines;
pub use firing::apply;
pub use laws::{puts_are_firings, queues_are_held};
pub use notes::Notes;
pub use reserve::reserve_for;
pub use shared::Shared;
