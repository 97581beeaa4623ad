use crate::{Items, Span, Word};

/// An identifier where it stands (ISO 7185, 6.1.3).
///
/// `NAME`
pub struct Name {
    pub word: Word,
    pub span: Span,
}

impl Drop for Name {
    fn drop(self) {
        let Name { word: _, span: _ } = self;
    }
}

/// An identifier list (ISO 7185, 6.4.2.3).
///
/// `Names = NAME {"," NAME}`
pub struct NameList {
    pub names: Items<Name>,
    pub span: Span,
}

impl Drop for NameList {
    fn drop(self) {
        let NameList { names: _, span: _ } = self;
    }
}
