//! What a run keeps of its systems and of the clock.

use estelle_tree::Path;

/// A system, as it stands between two events (ISO/IEC 9074: systemprocess, systemactivity).
#[derive(Debug)]
pub struct System {
    pub path: Path,
    /// Whether it awaits a selection.
    pub awaits: bool,
    /// How many of its selected firings are pending.
    pub pending: usize,
}

impl Drop for System {
    fn drop(self) {
        let System {
            path: _,
            awaits: _,
            pending: _,
        } = self;
    }
}

/// What is kept of the clock.
#[derive(Clone, Copy, Debug, PartialEq, Eq)]
pub struct Time {
    /// The moment of the last selection or of the last wait, whichever came later; 0 before the first.
    pub known: u64,
    /// How many events there were at the last wait; 0 before the first.
    pub waited: u64,
    /// Whether the clock was not waited for yet, or something has fired since then.
    pub may_wait: bool,
}
