use estelle_model::{End, Event};
use estelle_tree::Path;

/// What was noted, and the number of who noted it. 0 stands for the executor on its own.
#[derive(Drop)]
pub struct Entry {
    pub by: u32,
    pub what: What,
}

#[derive(Drop)]
pub enum What {
    Event(Event),
    /// A worker took a pending firing, under the next ticket. Tickets count from 1.
    Take { ticket: u64, path: Path, trans: u32 },
    Ended(End),
}

/// A firing that was taken under a ticket, with who took it.
#[derive(Drop)]
pub struct Taken {
    pub ticket: u64,
    pub path: Path,
    pub trans: u32,
    pub by: u32,
}
