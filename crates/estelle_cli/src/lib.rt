//! The program: it reads a specification, and runs it and writes the trace of its run, or says whether it is accepted, or
//! writes its canonical text or the listing of its code, or says whether a trace behind it is that of a run. Or it makes a ring, and writes its text, or runs it and writes the counts of its run.
#![tactic(auto)]

mod by_workers;
mod coding;
mod contents;
mod input;
mod laws;
mod lines;
mod outcome;
mod program;
mod replay;
mod running;
mod task;
mod trial;

pub use estelle_words::{Command, Settings, settings};
pub use laws::one_refusal;
pub use outcome::Status;
pub use program::{estelle, estelle_plain};
pub use task::{Task, asked};
