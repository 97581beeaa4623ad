use crate::effect::Out;
use estelle_tree::{Items, Pair, Path};
use pascal_values::Fault;

/// One step of a run. Outputs stand in the order in which they were made, and the numbers of
/// dropped interactions rise.
#[derive(Debug, Drop)]
pub enum Event {
    Start {
        outs: Items<Out>,
        drops: Items<u64>,
    },
    /// A system selects the transitions that it will fire. They stand in the order of paths.
    Select {
        system: Path,
        now: u64,
        takes: Items<Pair>,
    },
    Fire {
        path: Path,
        trans: u32,
        outs: Items<Out>,
        drops: Items<u64>,
    },
    Fault {
        path: Path,
        trans: u32,
        kind: Fault,
    },
}

/// How a run ends.
#[derive(Clone, Copy, Debug, PartialEq, Eq)]
pub enum End {
    /// Nothing is selected, and nothing can be any more.
    Dead,
    /// The limit of firings is reached.
    Turns,
    Faulted(Fault),
    /// The clock failed.
    Clock,
}

/// The events of a run.
#[derive(Debug)]
pub struct Run {
    pub events: Items<Event>,
}

impl Drop for Run {
    fn drop(self) {
        let Run { events: _ } = self;
    }
}
