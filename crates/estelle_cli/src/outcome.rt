//! How a call of the program ends.

ghost use Rattle.std.specs.Prelude.{◌≡◌};
ghost use Rattle.estelle_cli.specs.declared.outcome.Stop.TheVariants.{Memory};
ghost use Rattle.estelle_cli.specs.Statuses.{code_of};

use estelle_tree::Text;
use pascal_values::Fault;
use std::alloc::AllocError;

/// A byte of the input: its line, and its number in that line, both counted from 1.
#[derive(Clone, Copy, Debug, PartialEq, Eq)]
pub struct Place {
    pub line: u32,
    pub column: u32,
}

/// Why an input is refused. The earlier reason comes first.
#[derive(Clone, Copy, Debug, PartialEq, Eq)]
pub enum Refusal {
    TooLong,
    /// No token, blank or comment begins there.
    Bytes(Place),
    /// Something stands there behind `end.`.
    TextAfterEnd(Place),
    /// The grammar does not go on with what stands there.
    Syntax(Place),
    /// This is the least rule that is broken, and the first node that breaks it begins there.
    Rule { number: u8, place: Place },
    /// What stands behind the specification is no trace; this is its first bad line.
    BadTraceLine(u32),
    /// The trace is that of no run of the specification; this is the first entry that does not apply.
    NotARun(u32),
}

/// Why an input was not read as what it is to be, or a specification not run.
#[derive(Clone, Copy, Debug, PartialEq, Eq)]
pub enum Stop {
    Refused(Refusal),
    ReadFault,
    Memory,
}

impl From<AllocError> for Stop {
    ghost from_gives = { λ _ e. e ≡ Memory };

    fn from(_error: AllocError) -> Stop {
        Stop::Memory
    }
}

/// How a task was done whose output is to be written.
#[derive(Clone, Copy, Debug, PartialEq, Eq)]
pub enum Close {
    Well,
    /// This fault ended the run.
    Faulted(Fault),
    /// The clock failed, which ended the run.
    ByClock,
}

/// How a call with meaningful words ended, with what its line says.
#[derive(Debug, Drop)]
pub enum Outcome {
    Done,
    PascalFault(Fault),
    ClockFault,
    /// With the line for err.
    Refused(Refusal, Text),
    ReadFault,
    WriteFault,
    Memory,
}

/// How a call of the program ended.
#[derive(Clone, Copy, Debug, PartialEq, Eq)]
pub enum Status {
    Done,
    Refused,
    Usage,
    ReadFault,
    WriteFault,
    ClockFault,
    Memory,
    PascalFault,
}

impl Status {
    /// The status with which the process ends.
    pub fn code(self) -> u8
        ensures { result ≡ code_of self }
    {
        match self {
            Status::Done => 0,
            Status::Refused => 1,
            Status::Usage => 2,
            Status::ReadFault => 3,
            Status::WriteFault => 4,
            Status::ClockFault => 5,
            Status::Memory => 6,
            Status::PascalFault => 7,
        }
    }
}
