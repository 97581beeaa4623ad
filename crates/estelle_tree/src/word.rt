ghost use Rattle.std.specs.Prelude.{◌≡◌, IfOk, map};
ghost use Rattle.std.specs.Char.{to_ascii_lowercase};

use std::alloc::{AllocError, Global};
use std::marker::Model;

/// An identifier or a reserved word in lower case, seen as its bytes.
#[derive(Debug)]
pub struct Word {
    bytes: Vec<u8>,
}

impl Drop for Word {
    fn drop(self) {
        let Word { bytes: _ } = self;
    }
}

impl Model for Word {
    ghost use Rattle.std.specs.Prelude.{List, ℕ};
    ghost use Rattle.std.specs.Coded.{coded_list, coded_ℕ};

    ghost Value = { List ℕ };

    ghost coded = { coded_list coded_ℕ };

    ghost view = { λ a. a.bytes.items };
}

impl Word {
    /// The bytes with A to Z made lower case.
    pub fn of(alloc: Global, bytes: &[u8]) -> Result<Word, AllocError>
        ensures { IfOk result (λ word. word ≡ map to_ascii_lowercase bytes.now) }
    {
        let bytes = bytes
            .iter()
            .map(|byte| byte.to_ascii_lowercase())
            .collect(alloc)?;
        Ok(Word { bytes })
    }

    pub fn copy(&self, alloc: Global) -> Result<Word, AllocError>
        ensures { IfOk result (λ word. word ≡ self.now) }
    {
        Ok(Word {
            bytes: self.bytes.to_vec(alloc)?,
        })
    }

    pub fn items(&self) -> &[u8]
        ensures { result.now ≡ self.now }
    {
        &self.bytes
    }
}
