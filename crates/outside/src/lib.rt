//! The devices that a program reads from, writes to and asks for the time, and the choosers that settle its choices.
//!
//! It stands on std, and on the library `rand_pcg` for choices by a seed. A call of a device fails only where the device's count of faults rose in
//! that call, a count never falls, and a failed call leaves what the device tells as it was.
#![tactic(auto)]

mod chooser;
mod choosers;
mod clock;
mod failed;
mod machine_clock;
mod memory;
mod script_clock;
mod sink;
mod source;
mod standard;
mod sure;
mod virtual_clock;

pub use chooser::Chooser;
pub use choosers::{AnyChooser, FirstChooser, SeedChooser};
pub use clock::Clock;
pub use failed::Failed;
pub use machine_clock::MachineClock;
pub use memory::{MemorySink, MemorySource};
pub use script_clock::ScriptClock;
pub use sink::{Sink, write_all};
pub use source::Source;
pub use standard::{StdSink, StdSource};
pub use sure::{SureSink, SureSource};
pub use virtual_clock::VirtualClock;
