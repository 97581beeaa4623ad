ghost use Rattle.std.specs.Prelude.{◌≡◌};
ghost use Rattle.estelle_lexer.specs.declared.error.LexError.TheVariants.{Memory};

use std::alloc::{AllocError, AllocFailed};

/// Why a text has no tokens.
#[derive(Debug, Drop)]
pub enum LexError {
    /// The first byte at which no token, blank or comment begins.
    At(u32),
    Memory,
}

impl From<AllocError> for LexError {
    ghost from_gives = { λ _ error. error ≡ Memory };

    fn from(_error: AllocError) -> LexError {
        LexError::Memory
    }
}

impl<T: Drop> From<AllocFailed<T>> for LexError {
    ghost from_gives = { λ _ error. error ≡ Memory };

    fn from(_error: AllocFailed<T>) -> LexError {
        LexError::Memory
    }
}
