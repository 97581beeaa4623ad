use crate::Path;

/// A flat transition of an instance, by its number from 1. Number 0 is the initialization.
#[derive(Debug, Drop)]
pub struct Pair {
    pub path: Path,
    pub trans: u32,
}

/// An enabled transition that has a delay, with the bounds of the delay. There is no greatest moment where
/// `high` is none (ISO/IEC 9074: `delay` clauses).
#[derive(Debug)]
pub struct Wanted {
    pub path: Path,
    pub trans: u32,
    pub low: u32,
    pub high: Option<u32>,
}

impl Drop for Wanted {
    fn drop(self) {
        let Wanted {
            path: _,
            trans: _,
            low: _,
            high: _,
        } = self;
    }
}
