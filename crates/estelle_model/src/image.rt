use estelle_tree::{Items, Link, Path, Word};
use pascal_values::Values;

/// An instance of a module (ISO/IEC 9074).
#[derive(Debug)]
pub struct Part {
    pub path: Path,
    /// Its body's number; the specification has the number 0.
    pub body: u32,
    pub state: Option<u32>,
    /// The header's parameters and exported variables, then the body's own.
    pub vars: Values,
    /// The child that each module variable holds.
    pub modvars: Items<Option<Path>>,
    /// How many children it has had.
    pub births: u64,
}

impl Drop for Part {
    fn drop(self) {
        let Part {
            path: _,
            body: _,
            state: _,
            vars: _,
            modvars: _,
            births: _,
        } = self;
    }
}

/// An instance and all below it in path order, with the links that they made.
#[derive(Debug, Drop)]
pub struct Image {
    pub parts: Items<Part>,
    pub links: Items<Link>,
}

/// An interaction that waits in a queue; outputs are numbered from 1 over the run.
#[derive(Debug, Drop)]
pub struct Interaction {
    pub number: u64,
    pub name: Word,
    pub values: Values,
}
