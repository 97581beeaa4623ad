use estelle_model::{End, Job};

/// What a turn gives a pass to do.
#[derive(Debug, Drop)]
pub enum Work {
    /// A firing to compute, and then to commit.
    Job(Job),
    /// The run went on without a firing.
    Moved,
    /// All firings that are pending are with others. The first of them has this ticket.
    Idle(u64),
    /// The run has ended so.
    Ended(End),
}
