//! The history of a run: its events, the firings that workers took, and its end, each with who noted it.
//!
//! It stands on `estelle_model`, and its proofs on lists of `estelle_model_legality`. A `History` is seen as the list of
//! its entries and the number of those for which there is memory. `project` gives the events alone, and `count_fires`
//! how many of them are firings, in constant time; `into_run` gives them without copies. Only `reserve`, `project` and
//! `into_run` take memory. Which tickets are open, and how tickets go on, are laws on lists (`specs/OpenTickets`).
#![tactic(auto)]

mod copies;
mod entry;
mod history;
mod laws;

pub use entry::{Entry, Taken, What};
pub use history::{History, count_fires, into_run, project};
pub use laws::{
    open_tickets_are_listed, still_open, tickets_are_settled, tickets_go_on, untaken_go_on,
};
