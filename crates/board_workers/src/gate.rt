//! Gates.

use std::sync::Wait;

/// What each firing passes before its body runs, and behind it. It may hold a worker there.
pub trait Gate {
    /// The firing with this ticket is about to be computed.
    fn enter<R: Wait>(&self, rt: &R, ticket: u64);

    /// It was computed, or memory was missing.
    fn leave<R: Wait>(&self, rt: &R, ticket: u64);
}

/// A gate that holds nobody.
#[derive(Clone, Copy, Debug, PartialEq, Eq)]
pub struct FreeGate;

impl Gate for FreeGate {
    fn enter<R: Wait>(&self, _rt: &R, _ticket: u64) {}

    fn leave<R: Wait>(&self, _rt: &R, _ticket: u64) {}
}
