use crate::effect::Effect;
use crate::image::{Image, Interaction};
use estelle_tree::{Items, Path};
use pascal_values::Fault;

/// A firing to be computed from the instance's private part alone. Transition 0 is the initialization
/// of the specification.
#[derive(Debug, Drop)]
pub struct Job {
    pub ticket: u64,
    pub path: Path,
    pub trans: u32,
    pub image: Image,
    /// What the firing takes from its queue.
    pub head: Option<Interaction>,
    pub budget: u32,
}

/// What a block came to.
#[derive(Debug, Drop)]
pub enum Outcome {
    Ran {
        image: Image,
        effects: Items<Effect>,
    },
    Faulted(Fault),
}

/// A job that was computed.
#[derive(Debug, Drop)]
pub struct Done {
    pub ticket: u64,
    pub path: Path,
    pub trans: u32,
    pub outcome: Outcome,
    /// The units that are left.
    pub left: u32,
}

/// Whether a transition is enabled, and the bounds of its delay, which without one are 0.
#[derive(Clone, Copy, Debug, PartialEq, Eq)]
pub enum Guard {
    Off,
    /// There is no greatest moment where `high` is none.
    On { low: u32, high: Option<u32> },
    Faulted(Fault),
}
