//! Tests alone, of the edges of the program: what its words mean, the devices, and the texts of a trace.
//!
//! It stands on `estelle_words`, `outside`, `trace_text` and the worked texts. The wanted values are written by hand.
#![tactic(auto)]

#[cfg(test)]
mod devices;
#[cfg(test)]
mod trace_reading;
#[cfg(test)]
mod trace_texts;
#[cfg(test)]
mod words;
