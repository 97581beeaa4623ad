//! Tests alone: runs by workers, through the top call `estelle`.
//!
//! It stands on `estelle_cli`, `board_workers` and the worked texts.
#![tactic(auto)]

#[cfg(test)]
mod calls;
#[cfg(test)]
mod meeting;
#[cfg(test)]
mod runs;
