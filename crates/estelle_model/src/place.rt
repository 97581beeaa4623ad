use estelle_tree::{Items, Path};
use pascal_values::Values;

/// Where a variable's value, or a part of it, is kept (ISO 7185, 6.5). A way has the number of a part at
/// each level, from 0.
#[derive(Drop)]
pub enum Place {
    /// A part of a variable of an instance.
    Of {
        path: Path,
        variable: u32,
        way: Items<u32>,
    },
    /// A part of a variable of a block or routine that runs.
    In {
        frame: u32,
        variable: u32,
        way: Items<u32>,
    },
}

/// Where a block or a routine runs: the instance, the number of the frame, which is how deep calls nest,
/// and what the var parameters name.
#[derive(Drop)]
pub struct Environment {
    pub path: Path,
    pub frame: u32,
    pub references: Items<Place>,
}

/// The arguments of a call: values, and the places for var parameters.
#[derive(Drop)]
pub struct ActualParameters {
    pub values: Values,
    pub references: Items<Place>,
}
