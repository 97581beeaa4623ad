//! Tests alone, of the top call `estelle_plain`: all that whole calls write and answer, on worked specifications, on spoiled
//! ones and on devices that fail.
//!
//! It stands on `estelle_cli`, `outside` and the worked texts. The wanted texts are written by hand, or told by a loop of the
//! test's own.
#![tactic(auto)]

#[cfg(test)]
mod calls;
#[cfg(test)]
mod failing;
#[cfg(test)]
mod forms;
#[cfg(test)]
mod hostile;
#[cfg(test)]
mod making;
#[cfg(test)]
mod memory;
#[cfg(test)]
mod pascal;
#[cfg(test)]
mod replaying;
#[cfg(test)]
mod rows;
#[cfg(test)]
mod systems;
#[cfg(test)]
mod time;
#[cfg(test)]
mod traces;
#[cfg(test)]
mod trials;
