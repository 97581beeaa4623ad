//! What an evaluator of bodies works on: what is known of the bodies of a specification before any instance runs, and a walk: the
//! instances and links of an image with the effects so far, the frames of what runs, and the units left.
//!
//! It stands on `estelle_model`, of which each call follows a step over a log, and on `body_values`. What it borrows of an
//! image it copies once that changes.
#![tactic(auto)]

mod alteration;
mod bodies;
mod born;
mod ends;
mod instances;
mod links;
mod log;
mod parts;
mod view;
mod walk;

pub use alteration::Alteration;
pub use bodies::{Initialization, ModuleBodies, ModuleBody};
pub use born::new_part;
pub use ends::{above, is_bound, is_connected, is_same_path, is_upper};
pub use log::LogEntry;
pub use parts::{copy_parts, is_in_order, part_at};
pub use view::View;
pub use walk::Walk;
