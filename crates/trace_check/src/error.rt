//! Why events and an end are not judged to be those of a run.

ghost use Rattle.std.specs.Prelude.{◌≡◌};
ghost use Rattle.trace_check.specs.declared.error.JudgeError.TheVariants.{Memory as IsMemory};

use std::alloc::AllocError;

/// Why events and an end are not those of a run. Entries are counted from 1; the end is the last one.
#[derive(Clone, Copy, Debug, PartialEq, Eq)]
pub enum JudgeError {
    /// This is the first entry that does not apply.
    NotARun { entry: u32 },
    Memory,
}

impl From<AllocError> for JudgeError {
    ghost from_gives = { λ _ e. e ≡ IsMemory };

    fn from(_error: AllocError) -> JudgeError {
        JudgeError::Memory
    }
}
