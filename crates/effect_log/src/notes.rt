ghost use Rattle.std.specs.Prelude.{◌≡◌, []};

use estelle_model::{Effect, Interaction, Out};
use estelle_tree::{IpAddr, Path, PathRoom};
use std::alloc::Global;

/// What is noted of firings: the outputs in order, the numbers of the interactions that were dropped, and the paths at
/// which outputs arrived. The rest is working space, empty after each firing.
pub struct Notes {
    pub outs: Vec<Out>,
    pub drops: Vec<u64>,
    pub arrivals: Vec<Path>,
    pub rooms: Vec<PathRoom>,
    pub dropped: Vec<Interaction>,
    /// The effects that are left, the next one last.
    pub log: Vec<Effect>,
    /// The interaction points of a new instance, the first one last.
    pub points: Vec<IpAddr>,
}

impl Drop for Notes {
    fn drop(self) {
        let Notes {
            outs: _,
            drops: _,
            arrivals: _,
            rooms: _,
            dropped: _,
            log: _,
            points: _,
        } = self;
    }
}

impl Notes {
    /// Nothing noted, and no room. It takes no memory.
    pub fn none(alloc: Global) -> Notes
        ensures outs { result.outs.items ≡ [] }
        ensures drops { result.drops.items ≡ [] }
        ensures arrivals { result.arrivals.items ≡ [] }
    {
        Notes {
            outs: Vec::new(alloc),
            drops: Vec::new(alloc),
            arrivals: Vec::new(alloc),
            rooms: Vec::new(alloc),
            dropped: Vec::new(alloc),
            log: Vec::new(alloc),
            points: Vec::new(alloc),
        }
    }
}
