ghost use Rattle.std.specs.Prelude.{◌≡◌, [], IfOk};
ghost use Rattle.pascal_values.specs.Sets.{IsSet};

use std::alloc::{AllocError, Global};
use std::marker::Model;

/// A set's members, seen as the rising list of their ordinals, each at most 255.
#[derive(Debug)]
pub struct Members {
    ordinals: Vec<u32>,
}

impl Drop for Members {
    fn drop(self) {
        let Members { ordinals: _ } = self;
    }
}

impl Model for Members {
    ghost use Rattle.std.specs.Prelude.{List, ℕ};
    ghost use Rattle.std.specs.Coded.{coded_list, coded_ℕ};
    ghost use Rattle.pascal_values.specs.Sets.{IsSet};

    ghost Value = { List ℕ };

    ghost coded = { coded_list coded_ℕ };

    ghost view = { λ a. a.ordinals.items };

    ghost invariant = { λ a. IsSet a.ordinals.items };
}

impl Members {
    /// The empty set. It takes no memory.
    pub fn none(alloc: Global) -> Members
        ensures { result ≡ [] }
    {
        Members {
            ordinals: Vec::new(alloc),
        }
    }

    /// The ordinals, rising. It takes no memory.
    pub fn items(&self) -> &[u32]
        ensures same { result.now ≡ self.now }
        ensures rising { IsSet self.now }
    {
        &self.ordinals
    }

    /// The set of ordinals that rise.
    pub(crate) fn of(ordinals: Vec<u32>) -> Members
        requires { IsSet ordinals.items }
        ensures { result ≡ ordinals.items }
    {
        Members { ordinals }
    }

    pub fn copy(&self, alloc: Global) -> Result<Members, AllocError>
        ensures { IfOk result (λ set. set ≡ self.now) }
    {
        Ok(Members {
            ordinals: self.ordinals.to_vec(alloc)?,
        })
    }
}
