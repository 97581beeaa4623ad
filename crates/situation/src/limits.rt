use estelle_model::End;

/// How far a run goes, and how many units each firing has.
#[derive(Clone, Copy, Debug, PartialEq, Eq)]
pub struct Limits {
    pub turns: u32,
    pub budget: u32,
}

/// What a step of a world did.
#[derive(Clone, Copy, Debug, PartialEq, Eq)]
pub enum Stepped {
    /// A system selected.
    Selected,
    /// The clock was waited for.
    Waited,
    Fired,
    /// A firing faulted, which ends the run.
    Faulted,
    /// The run has ended so.
    Ended(End),
}

/// How far a world went without firing.
#[derive(Clone, Copy, Debug, PartialEq, Eq)]
pub enum Advanced {
    /// A system selected.
    Selected,
    /// The clock was waited for.
    Waited,
    /// A firing is pending that nobody has taken.
    Ready,
    /// All firings that are pending were taken. The first of them has this ticket.
    Flying(u64),
    /// The run has ended so.
    Ended(End),
}

/// What became of a firing that was computed.
#[derive(Clone, Copy, Debug, PartialEq, Eq)]
pub enum Committed {
    Fired,
    /// It faulted, which ends the run.
    Faulted,
    /// The run had ended so before.
    Late(End),
}
