ghost use Rattle.std.specs.Prelude.{◌≡◌};
ghost use Rattle.trace_text.specs.declared.error.Missing.TheVariants as missing;

use std::alloc::{AllocError, AllocFailed};

/// Why a text is not read.
#[derive(Clone, Copy, Debug, PartialEq, Eq)]
pub enum TraceError {
    /// The first line, counted from 1, up to which no trace text begins.
    BadTrace { line: u32 },
    Memory,
}

/// Why a field or a line is not read: none stands there, or there is no memory.
#[derive(Clone, Copy)]
pub enum Missing {
    Absent,
    Memory,
}

impl From<AllocError> for Missing {
    ghost from_gives = { λ _ error. error ≡ missing.Memory };

    fn from(_error: AllocError) -> Missing {
        Missing::Memory
    }
}

impl<T: Drop> From<AllocFailed<T>> for Missing {
    ghost from_gives = { λ _ error. error ≡ missing.Memory };

    fn from(_error: AllocFailed<T>) -> Missing {
        Missing::Memory
    }
}
