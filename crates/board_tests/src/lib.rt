//! Tests alone: a log that a board passes round, on one thread and on two, by workers, and a run on one thread.
#![tactic(auto)]

mod log;
#[cfg(test)]
mod one_thread;
#[cfg(test)]
mod run_turns;
#[cfg(test)]
mod two_threads;
#[cfg(test)]
mod workers;
mod writing;
