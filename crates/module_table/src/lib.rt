//! What headers, interaction points and interactions are, once all is declared.
//!
//! It stands on `tree_visits` for the walk, on `declaration_table` and `type_rules` for which declaration a name in use means,
//! and on `place_table`. `module_table` gives what is known of a specification; the look-ups of a `ModuleTable` are those of the
//! definitions in `specs/Known`.
#![tactic(auto)]

mod declared;
mod declaring;
mod sending;
mod table;

pub use declared::{Declared, Interaction, InteractionPoint, Sender};
pub use sending::{may_receive, may_send};
pub use table::{ModuleTable, module_table};
