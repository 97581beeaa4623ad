//! What instances offer.

use estelle_tree::Path;

/// What an instance offers a system that selects: of the transitions that may be selected now those over which none has
/// priority.
#[derive(Debug)]
pub struct Offer {
    pub path: Path,
    /// Whether what its children select is taken together. Of others that of one child is taken.
    pub of_process: bool,
    pub offered: Vec<u32>,
}

impl Drop for Offer {
    fn drop(self) {
        let Offer {
            path: _,
            of_process: _,
            offered: _,
        } = self;
    }
}
