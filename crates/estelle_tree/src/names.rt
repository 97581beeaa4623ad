use crate::{Items, Span};

/// A name in use.
#[derive(Clone, Copy, Debug, PartialEq, Eq)]
pub struct Use {
    pub at: Span,
    /// The name in its declaration; 0..0 for a required identifier.
    pub decl: Span,
}

/// For each name in use, the name in its declaration.
#[derive(Debug, Drop)]
pub struct Names {
    pub uses: Items<Use>,
}
