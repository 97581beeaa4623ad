//! The text of runs, their trace: it is written, and read again.
//!
//! It stands on `estelle_model`, which has events and the definition of their text, on `pascal_values` for the text of values,
//! and on `estelle_tree`. What is written is the text of the run. What is read is a run whose text is the one given, and there is
//! only one; a text that is no trace is refused with its first bad line.
#![tactic(auto)]

mod error;
mod fields;
mod laws;
mod line;
mod numbers;
mod parameters;
mod reading;
mod stage;
mod takes;
mod words;
mod writing;

pub use error::TraceError;
pub use laws::one_reading;
pub use reading::read;
pub use writing::{lines, out_text, put, put_number, write};
